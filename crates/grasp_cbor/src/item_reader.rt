//! Reading items byte by byte.

ghost use Rattle.std.specs.Prelude.{◌≡◌, ◌≢◌, ℕ, ◌+◌, ◌<◌, ◌≤◌, List, [], ◌∷◌, ◌++◌, length, take, Err, IfSome, IfErr, Some, None};
ghost use Rattle.grasp_cbor.specs.declared.read.ItemFault.TheVariants.{OutOfMemory};

use crate::Steps;
use crate::read::{ItemFault, item_fault};
use crate::walker::{Taken, Walk, WalkFault};
use std::sync::ledger::Ledger;

/// Reads items byte by byte, and takes no memory. It stands for the bytes that it took since the last whole item. After a
/// fault it stands for those up to and with the byte that met it, takes no more, and gives that fault again.
#[derive(Drop)]
pub struct ItemReader {
    walk: Walk,
    fault: Option<ItemFault>,
    ghost of_bytes: { fault ≢ Some OutOfMemory },
}

impl ItemReader {
    ghost use Rattle.grasp_cbor.specs.ItemReader.{Reading, AnswersTaken, bytes_with, bytes_after, bytes_passed, fault_in, fault_of, reader_limit};
    ghost use Rattle.grasp_cbor.specs.Ending.{IsPartial};

    /// Before the first byte of an item of at most `limit` bytes.
    pub fn new(limit: u64) -> ItemReader
        requires { 0 < limit }
        ensures fresh { Reading result [] }
        ensures fault { fault_of result ≡ None }
        ensures limit { reader_limit result ≡ limit }
    {
        ItemReader {
            walk: Walk::new(limit),
            fault: None,
        }
    }

    /// How many bytes it stands for.
    pub fn count(&self) -> u64
        ensures { (s : List ℕ) → Reading self.now s → result ≡ length s }
    {
        self.walk.count()
    }

    /// Takes the next byte, in one step, and answers as `read_item` does on the bytes since the last whole item.
    pub fn take<L: Ledger>(&mut self, byte: u8, steps: &mut Steps<L>) -> Result<Taken, ItemFault>
        ensures exact { (s : List ℕ) → Reading self.old s → AnswersTaken (bytes_with (fault_of self.old) s byte) (reader_limit self.old) result }
        ensures then { (s : List ℕ) → Reading self.old s → Reading self.new (bytes_after (bytes_with (fault_of self.old) s byte) result) }
        ensures again { IfSome (fault_of self.old) (λ fault. result ≡ Err fault) }
        ensures fault { fault_of self.new ≡ fault_in result }
        ensures memory { IfErr result (λ fault. fault ≢ OutOfMemory) }
        ensures limit { reader_limit self.new ≡ reader_limit self.old }
        ensures counted { steps.new ≡ steps.old + 1 }
    {
        steps.tick();
        if let Some(fault) = self.fault {
            return Err(fault);
        }
        match self.walk.take(byte) {
            Ok(taken) => Ok(taken),
            Err(WalkFault::Bad(name, at)) => {
                let fault = item_fault(name, at);
                self.fault = Some(fault);
                Err(fault)
            }
            Err(WalkFault::TooLong) => {
                self.fault = Some(ItemFault::TooLong);
                Err(ItemFault::TooLong)
            }
        }
    }

    /// Takes some of these bytes, behind each of which the item can go on, in a step each, and answers how many. It may take
    /// none, and takes none after a fault.
    pub fn pass<L: Ledger>(&mut self, bytes: &[u8], steps: &mut Steps<L>) -> usize
        ensures within { result ≤ length bytes.now }
        ensures then { (s : List ℕ) → Reading self.old s → Reading self.new (bytes_passed (fault_of self.old) s bytes.now result) }
        ensures waits { (s : List ℕ) → Reading self.old s → fault_of self.old ≡ None
            → IsPartial (s ++ take result bytes.now) (reader_limit self.old) }
        ensures fault { fault_of self.new ≡ fault_of self.old }
        ensures limit { reader_limit self.new ≡ reader_limit self.old }
        ensures counted { steps.new ≡ steps.old + result }
    {
        if self.fault.is_some() {
            return 0;
        }
        let passed = self.walk.pass(bytes);
        steps.add(passed as u64);
        passed
    }
}
