//! A keeper and a pass can be sent to other threads, whatever the type of the entries: entries exist only in proofs.

use crate::keeper::Keeper;
use crate::pass::Pass;

fn crosses<T: Send>(value: T) -> T {
    value
}

fn keeper_crosses<E>(keeper: Keeper<'_, E>) -> Keeper<'_, E> {
    crosses(keeper)
}

fn pass_crosses<E>(pass: Pass<'_, E>) -> Pass<'_, E> {
    crosses(pass)
}
