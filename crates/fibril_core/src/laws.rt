//! What the calls on fibrils and connections come to, over all sound states.
ghost use Rattle.std.specs.Prelude.{◌≡◌, List, Option, Some, None, IsSome};
ghost use Rattle.ipc_ids.specs.declared.numbers.CallNo.{CallNo};
ghost use Rattle.ipc_ids.specs.declared.numbers.FibrilNo.{FibrilNo};
ghost use Rattle.ipc_ids.specs.declared.numbers.Label.{Label};
ghost use Rattle.ipc_ids.specs.declared.message.Msg.{Msg};
ghost use Rattle.ipc_ids.specs.declared.message.Why.{Why};
ghost use Rattle.fibril_core.specs.declared.conn.Conn.{Conn};
ghost use Rattle.fibril_core.specs.declared.fibrils.Status.TheVariants as status;
ghost use Rattle.fibril_core.specs.Fibrils.{FibrilOrder, no_fibrils, current, first_blocked};
ghost use Rattle.fibril_core.specs.Fibrils.{why_of, spawned, block_on, yield_now, end_current};
ghost use Rattle.fibril_core.specs.Fibrils.{make_ready, wake_first, wake_all};
ghost use Rattle.fibril_core.specs.FibrilLaws.{IsSound as IsSoundOrder, IsFirst, HasNone, Becomes};
ghost use Rattle.fibril_core.specs.FibrilLaws.{WakesAll};
ghost use Rattle.fibril_core.specs.Conns.{no_conns, leads_to, serves, conn_of_fibril};
ghost use Rattle.fibril_core.specs.Conns.{conn_of_label, start, route_to, route, take_first};
ghost use Rattle.fibril_core.specs.Conns.{take_next, owed_by, finish};
ghost use Rattle.fibril_core.specs.ConnLaws.{IsSound as AreSoundConns, Finds, Starts, Changes};
ghost use Rattle.fibril_core.specs.ConnLaws.{Ends, OwesInOrder};

/// An order that is sound is so after each call. None are at the start, and that is sound.
pub fn calls_keep_fibrils_sound()
    ensures none { IsSoundOrder no_fibrils }
    ensures spawned { (o : FibrilOrder) → IsSoundOrder o → IsSoundOrder (spawned o) }
    ensures blocked { (o : FibrilOrder) (w : Why) → IsSoundOrder o → IsSoundOrder (block_on o w) }
    ensures yielded { (o : FibrilOrder) → IsSoundOrder o → IsSoundOrder (yield_now o) }
    ensures ended { (o : FibrilOrder) → IsSoundOrder o → IsSoundOrder (end_current o) }
    ensures ready { (o : FibrilOrder) (f : FibrilNo) → IsSoundOrder o → IsSome (why_of o f)
        → IsSoundOrder (make_ready o f) }
    ensures first { (o : FibrilOrder) (w : Why) → IsSoundOrder o → IsSoundOrder (wake_first o w) }
    ensures all { (o : FibrilOrder) (w : Why) → IsSoundOrder o → IsSoundOrder (wake_all o w) }
{}

/// The present fibril has the least stamp of those that are ready, and there is one exactly where
/// one is ready. So it is with the first of those that are blocked on one thing.
pub fn searches_find_the_least_stamp()
    ensures current { (o : FibrilOrder) (f : FibrilNo) → IsSoundOrder o → current o ≡ Some f
        → IsFirst o status.Ready f.0 }
    ensures no_current { (o : FibrilOrder) → current o ≡ None → HasNone o status.Ready }
    ensures blocked { (o : FibrilOrder) (w : Why) (f : FibrilNo) → IsSoundOrder o
        → first_blocked o w ≡ Some f → IsFirst o (status.Blocked w) f.0 }
    ensures no_blocked { (o : FibrilOrder) (w : Why) → first_blocked o w ≡ None
        → HasNone o (status.Blocked w) }
{}

/// A call changes the fibril that it is about, which stands behind all others then, and no other.
pub fn calls_change_one_fibril()
    ensures blocked { (o : FibrilOrder) (w : Why) (f : FibrilNo) → IsSoundOrder o
        → current o ≡ Some f → Becomes o (block_on o w) f.0 (status.Blocked w) }
    ensures yielded { (o : FibrilOrder) (f : FibrilNo) → IsSoundOrder o → current o ≡ Some f
        → Becomes o (yield_now o) f.0 status.Ready }
    ensures ready { (o : FibrilOrder) (f : FibrilNo) → IsSoundOrder o → IsSome (why_of o f)
        → Becomes o (make_ready o f) f.0 status.Ready }
    ensures first { (o : FibrilOrder) (w : Why) (f : FibrilNo) → IsSoundOrder o
        → first_blocked o w ≡ Some f → Becomes o (wake_first o w) f.0 status.Ready }
{}

/// A wake of all makes all ready that were blocked on one thing, behind the others and in the order
/// of their blocking, and none is blocked on it then.
pub fn wakes_keep_the_order_of_blocking()
    ensures { (o : FibrilOrder) (w : Why) → IsSoundOrder o → WakesAll o (wake_all o w) w }
{}

/// The holder of a label is a connection to which it leads, and there is none exactly where it
/// leads to none. So it is with the connection of a fibril.
pub fn searches_find_the_connection()
    ensures label { (label : Label) (cs : List Conn)
        → Finds (leads_to label) cs (conn_of_label label cs) }
    ensures fibril { (f : FibrilNo) (cs : List Conn) → Finds (serves f) cs (conn_of_fibril f cs) }
{}

/// Connections that are sound are so after each call. None are at the start, and that is sound.
pub fn calls_keep_connections_sound()
    ensures none { AreSoundConns no_conns }
    ensures started { (cs : List Conn) (label : Label) (f : FibrilNo) → AreSoundConns cs
        → conn_of_fibril f cs ≡ None → AreSoundConns (start label f cs) }
    ensures routed { (cs : List Conn) (label : Label) (call : CallNo) (msg : Msg)
        → AreSoundConns cs → AreSoundConns (route label call msg cs) }
    ensures taken { (cs : List Conn) (f : FibrilNo) → AreSoundConns cs
        → AreSoundConns (take_next f cs) }
    ensures finished { (cs : List Conn) (f : FibrilNo) → AreSoundConns cs
        → AreSoundConns (finish f cs) }
{}

/// A new connection takes its label from an older one, which is closed and keeps its fibril. A call
/// that is routed changes the connection to which its label leads, one that is taken that of its
/// fibril. The end of a fibril ends its connection. No other connection changes.
pub fn calls_change_one_connection()
    ensures started { (cs : List Conn) (label : Label) (f : FibrilNo)
        → conn_of_fibril f cs ≡ None → Starts label f cs (start label f cs) }
    ensures routed { (cs : List Conn) (label : Label) (call : CallNo) (msg : Msg) (c : Conn)
        → AreSoundConns cs → conn_of_label label cs ≡ Some c
        → Changes c (route_to call msg c) cs (route label call msg cs) }
    ensures taken { (cs : List Conn) (f : FibrilNo) (c : Conn)
        → AreSoundConns cs → conn_of_fibril f cs ≡ Some c
        → Changes c (take_first c) cs (take_next f cs) }
    ensures finished { (cs : List Conn) (f : FibrilNo) (c : Conn)
        → AreSoundConns cs → conn_of_fibril f cs ≡ Some c → Ends c cs (finish f cs) }
{}

/// What a connection owes at its end: `EHANGUP` for each queued call in order, then `EOK` for the
/// close call.
pub fn close_calls_are_answered_last()
    ensures { (c : Conn) → OwesInOrder c (owed_by (Some c)) }
{}
