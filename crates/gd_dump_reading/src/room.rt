//! Lists for which room was made before.

ghost use Rattle.std.specs.Prelude.{◌≡◌, ◌+◌, ◌≤◌, ◌++◌, length, vec_capacity, vec_len};

/// Puts bytes behind a list that has room for them. No memory is taken.
pub fn append(list: &mut Vec<u8>, bytes: &[u8])
    requires { vec_len list.old + length bytes.now ≤ vec_capacity list.old }
    ensures items { list.new.items ≡ list.old.items ++ bytes.now }
    ensures len { vec_len list.new ≡ vec_len list.old + length bytes.now }
    ensures room { vec_capacity list.old ≤ vec_capacity list.new }
{
    let _room = list.extend_from_slice(bytes);
}
