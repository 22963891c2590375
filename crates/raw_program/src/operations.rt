//! The operations of a body, as a program keeps them.
ghost use Rattle.std.specs.Prelude.{◌≡◌, ◌^◌, ◌<◌, ◌++◌, ◌∷◌, [], length, slice_get, IfOk, OnOk, IfSome, IsTrue, Some};
ghost use Rattle.std.specs.Option.{option_copied};
ghost use Rattle.ipc_ids.specs.declared.op.Op.TheVariants as op;

use ipc_ids::{NoMemory, Op, Value};
use std::alloc::Global;
use std::marker::Model;

/// Operations. One that is the same as the one before it takes no room of its own: a body that does
/// the same many times is read and kept in little memory.
#[derive(Drop)]
pub struct Operations {
    distinct: Vec<Op>,
    // Which of them each operation is.
    which: Vec<u32>,
}

impl Model for Operations {
    ghost use Rattle.std.specs.Prelude.{List, length};
    ghost use Rattle.ipc_ids.specs.declared.op.Op.{Op};
    ghost use Rattle.raw_program.specs.Operations.{operations, AreBelow};

    ghost Value = { List Op };

    ghost view = { λ a. operations a.distinct.items a.which.items };

    ghost invariant = { λ a. AreBelow (length a.distinct.items) a.which.items };
}

impl Operations {
    ghost use Rattle.std.specs.Prelude.{◌≡◌, ◌^◌, ◌<◌, ◌++◌, ◌∷◌, [], length, slice_get, IfOk, OnOk, IfSome};
    ghost use Rattle.std.specs.Option.{option_copied};

    /// Each of these once more.
    ///
    /// # Errors
    ///
    /// `NoMemory` where no memory was found, or the operations that are kept are more than 2^32.
    pub fn copy_of(alloc: Global, ops: &[Op]) -> Result<Operations, NoMemory>
        ensures { IfOk result (λ copies. copies ≡ ops.now) }
    {
        let mut copies = Operations {
            distinct: Vec::new(alloc),
            which: Vec::with_capacity(alloc, ops.len())?,
        };
        for op in ops {
            copies.push(op)?;
        }
        Ok(copies)
    }

    /// The operation with this number, from 0 on.
    #[inline(always)]
    pub fn get(&self, place: usize) -> Option<&Op>
        ensures operation { option_copied result ≡ slice_get self.now place }
        ensures within { IfSome result (λ _. place < length self.now) }
        ensures few { length self.now < 2 ^ 63 }
    {
        match number_at(self.which.as_slice(), place) {
            Some(at) => Some(&self.distinct[at as usize]),
            None => None,
        }
    }

    /// Adds the same operation once more.
    fn push(&mut self, op: &Op) -> Result<(), NoMemory>
        ensures { OnOk result (self.new ≡ self.old ++ op.now ∷ []) }
    {
        if let Some(last) = last_like(self.distinct.as_slice(), op) {
            self.which.push(last)?;
            return Ok(());
        }
        let Ok(next) = u32::try_from(self.distinct.len()) else {
            return Err(NoMemory);
        };
        self.distinct.push(op.copy())?;
        self.which.push(next)?;
        Ok(())
    }
}

/// The number at this place.
#[inline(always)]
fn number_at(numbers: &[u32], place: usize) -> Option<u32>
    ensures number { result ≡ slice_get numbers.now place }
    ensures within { IfSome result (λ _. place < length numbers.now) }
    ensures few { length numbers.now < 2 ^ 63 }
{
    numbers.get(place).copied()
}

/// The number of the last operation, if it is the same as this one and a `u32` holds its number.
#[inline(always)]
fn last_like(ops: &[Op], op: &Op) -> Option<u32>
    ensures { IfSome result (λ last. slice_get ops.now last ≡ Some op.now) }
{
    match ops.last() {
        Some(last) if is_same(last, op) => u32::try_from(ops.len() - 1).ok(),
        _ => None,
    }
}

/// Whether two operations are the same; only calls and receives are looked at, which bodies repeat.
fn is_same(left: &Op, right: &Op) -> bool
    ensures { IsTrue result → left.now ≡ right.now }
{
    match left {
        Op::Call {
            phone,
            method,
            args,
        } => is_call(right, *phone, *method, args),
        Op::Receive => is_receive(right),
        _ => false,
    }
}

fn is_call(other: &Op, phone: Value, method: Value, args: &[Value; 5]) -> bool
    ensures { IsTrue result → op.Call phone method args.now ≡ other.now }
{
    match other {
        Op::Call {
            phone: one,
            method: two,
            args: values,
        } => phone == *one && method == *two && are_same(args.as_slice(), values.as_slice()),
        _ => false,
    }
}

fn are_same(left: &[Value], right: &[Value]) -> bool
    ensures { IsTrue result → left.now ≡ right.now }
{
    if left.len() != right.len() {
        return false;
    }
    for i in 0..left.len() {
        if left[i] == right[i] {
            continue;
        }
        return false;
    }
    true
}

fn is_receive(other: &Op) -> bool
    ensures { IsTrue result → op.Receive ≡ other.now }
{
    match other {
        Op::Receive => true,
        _ => false,
    }
}
