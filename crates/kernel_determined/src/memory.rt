//! What the definitions do with a sound memory, whichever state it is of.
ghost use Rattle.std.specs.Prelude.{◌≡◌, ℕ, List};
ghost use Rattle.ipc_ids.specs.declared.numbers.TaskNo.{TaskNo};
ghost use Rattle.ipc_ids.specs.declared.message.Reply.{Reply};
ghost use Rattle.address_space.specs.Areas.{Area};
ghost use Rattle.address_space.specs.Memory.{Memory, IsAdded, read, peek, write, make, share, drop_area};
ghost use Rattle.address_space.specs.Sound.{IsSound};
ghost use Rattle.data_hooks.specs.DataMoments.{cut_args, write_before_send, write_accept};
ghost use Rattle.data_hooks.specs.DataMoments.{read_before_send, read_accept, read_deliver};
ghost use Rattle.share_hooks.specs.ShareMoments.{out_before_send, in_before_send, out_accept, in_accept};
ghost use Rattle.kernel_laws.specs.MemoryLaws.{HasAt, IsLawfulRead, IsLawfulPeek};
ghost use Rattle.kernel_laws.specs.DataLaws.{first, second, third, AreCutDown, IsLawfulCopy};
ghost use Rattle.kernel_laws.specs.DataLaws.{IsLawfulAsking, IsLawfulTaking, IsLawfulOffer, IsLawfulWish};
ghost use Rattle.kernel_determined.specs.MemoryLaw.{IsWholeWrite, IsWholeMake, IsWholeDrop};
ghost use Rattle.kernel_determined.specs.AnswerLaw.{IsWholePlacing, IsWholeShare};

/// What a task reads lies in one area of it that may be read, at the same place of the area's store.
pub fn reads_are_of_one_area()
    ensures read { (m : Memory) (t : TaskNo) (at count : ℕ) → IsSound m
        → IsLawfulRead m t at count (read m t at count) }
    ensures peek { (m : Memory) (t : TaskNo) (at count : ℕ) → IsSound m
        → IsLawfulPeek m t at count (peek m t at count) }
{}

/// A write changes the bytes that it names, which lie in one area of the task that may be written,
/// and no other byte of any store; and no store comes or goes.
pub fn writes_change_what_they_name()
    ensures { (m : Memory) (t : TaskNo) (at : ℕ) (new : List ℕ) → IsSound m
        → IsWholeWrite m t at new (write m t at new) }
{}

/// A task gets just the area that it asks for, or that another task shares with it, or it is refused
/// by the first cause that holds; then nothing changes. As it drops an area, the one of its areas
/// with that base goes, and no other area of any task; the store goes where no area stands over it
/// any more.
pub fn areas_are_refused_by_the_first_cause()
    ensures make { (m : Memory) (t : TaskNo) (base pages rights : ℕ) → IsSound m → IsAdded m t
        → IsWholeMake m t base pages rights (make m t base pages rights) }
    ensures share { (m : Memory) (from : TaskNo) (base : ℕ) (to : TaskNo)
        (target pages rights : ℕ) → IsSound m → IsAdded m to
        → IsWholeShare m from base to target pages rights
        (share m from base to target pages rights) }
    ensures drop { (m : Memory) (t : TaskNo) (base : ℕ)
        → IsWholeDrop m t base (drop_area m t base) }
    ensures one { (m : Memory) (t : TaskNo) (base : ℕ) (a b : Area) → IsSound m
        → HasAt m t base a → HasAt m t base b → a ≡ b }
{}

/// A `DATA_WRITE` brings the bytes that its caller had as it was sent, and an accepting answer writes
/// the first of them, as many as it names and no more than there are. A `DATA_READ` takes the bytes
/// that the answerer has as it accepts, as many as it names and no more than were asked for, and
/// they are written as the answer is delivered. Each refusal is the first of its causes.
pub fn data_calls_move_what_they_name()
    ensures copied { (m : Memory) (caller : TaskNo) (args : List ℕ) (used : ℕ) → IsSound m
        → IsLawfulCopy m caller args used (write_before_send m caller args used) }
    ensures placed { (m : Memory) (answerer : TaskNo) (brought : List ℕ) (reply : Reply)
        → IsSound m
        → IsWholePlacing m answerer brought reply (write_accept m answerer brought reply) }
    ensures asked { (args : List ℕ) → IsLawfulAsking args (read_before_send args) }
    ensures cut { (args : List ℕ) → AreCutDown args (cut_args args) }
    ensures taken { (m : Memory) (answerer : TaskNo) (args : List ℕ) (reply : Reply) (used : ℕ)
        → IsSound m
        → IsLawfulTaking m answerer args reply used (read_accept m answerer args reply used) }
    ensures delivered { (m : Memory) (caller : TaskNo) (args bytes : List ℕ) → IsSound m
        → IsWholeWrite m caller (first args) bytes (read_deliver m caller args bytes) }
{}

/// A `SHARE_OUT` is sent just where the caller has such an area with such rights, a `SHARE_IN` where
/// there can be such an area. As it is accepted, one of the two gets the area that the call and the
/// answer name over the store of the other's, or it is refused by the first cause.
pub fn shares_give_what_they_name()
    ensures offered { (m : Memory) (caller : TaskNo) (args : List ℕ) → IsSound m
        → IsLawfulOffer m caller args (out_before_send m caller args) }
    ensures wished { (args : List ℕ) → IsLawfulWish args (in_before_send args) }
    ensures given { (m : Memory) (caller answerer : TaskNo) (args : List ℕ) (reply : Reply)
        → IsSound m → IsAdded m answerer
        → IsWholeShare m caller (first args) answerer (first reply.args) (second args) (third args)
        (out_accept m caller answerer args reply) }
    ensures taken { (m : Memory) (caller answerer : TaskNo) (args : List ℕ) (reply : Reply)
        → IsSound m → IsAdded m caller
        → IsWholeShare m answerer (first reply.args) caller (first args) (second args) (third args)
        (in_accept m caller answerer args reply) }
{}
