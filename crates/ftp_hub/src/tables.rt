//! Tables by session: a step changes one value, and a state goes through them in order.

ghost use Rattle.std.specs.Prelude.{◌≡◌, ◌+◌, ◌<◌, ◌≤◌, ◌==◌, ℕ, Some, None, IfOk, length, nat_eq, is_some, if◌then◌else◌};
ghost use Rattle.std.specs.HashMap as map;
ghost use Rattle.ftp_laws.specs.Census.{IsAscending, has as is_listed};

use std::alloc::{AllocError, Global};
use std::collections::HashMap;

/// Puts a value into a table, in room that was made; its number has none.
pub(crate) fn put<V: Drop>(table: &mut HashMap<u64, V>, number: u64, value: V)
    requires { 0 < map.spare table.old }
    ensures updates { (s : ℕ) → map.get nat_eq table.new s ≡ (if number == s then Some value else map.get nat_eq table.old s) }
    ensures len { map.get nat_eq table.old number ≡ None → map.hash_map_len table.new ≡ map.hash_map_len table.old + 1 }
{
    match table.insert(number, value) {
        Ok(_) => {}
        Err(_) => unreachable!(),
    }
}

/// Takes a value out of a table.
pub(crate) fn take<V: Drop>(table: &mut HashMap<u64, V>, number: u64) -> Option<V>
    ensures value { result ≡ map.get nat_eq table.old number }
    ensures updates { (s : ℕ) → map.get nat_eq table.new s ≡ (if number == s then None else map.get nat_eq table.old s) }
    ensures len { map.hash_map_len table.new + (if is_some result then 1 else 0) ≡ map.hash_map_len table.old }
    ensures spare { map.spare table.old ≤ map.spare table.new }
{
    table.remove(&number)
}

/// The numbers that have a value in a table, in order.
pub(crate) fn sorted_keys<V>(alloc: Global, table: &HashMap<u64, V>) -> Result<Vec<u64>, AllocError>
    ensures in_order { IfOk result (λ numbers. IsAscending numbers.items) }
    ensures all { IfOk result (λ numbers. (s : ℕ) → is_listed numbers.items s ≡ is_some (map.get nat_eq table.now s)) }
    ensures len { IfOk result (λ numbers. length numbers.items ≡ map.hash_map_len table.now) }
{
    let mut numbers = Vec::with_capacity(alloc, table.len())?;
    for number in table.keys() {
        numbers.push(*number)?;
    }
    numbers.sort_unstable();
    Ok(numbers)
}
