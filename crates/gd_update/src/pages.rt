//! Entries of a directory in a page.

ghost use Rattle.std.specs.Prelude.{◌≡◌, ◌+◌, ◌*◌, ◌/◌, ◌^◌, ◌<◌, ◌≤◌, ℕ, pos, true, IfSome, IsSome};
ghost use Rattle.gd_format.specs.Bucket.{is_from_zero};
ghost use Rattle.gd_format.specs.Field.{i64_at};

use gd_layout::Native;

/// How many of the entries that are left are done at once.
pub fn portion(left: u64, most: u64) -> u64
    requires { 0 < most }
    ensures few { result ≤ most }
    ensures within { result ≤ left }
    ensures some { 0 < left → 0 < result }
{
    left.min(most)
}

/// Fills a page with one address.
pub fn fill_page(address: u64, page: &mut [u8; 4096])
    requires { address < 2 ^ 63 }
    ensures { (j : ℕ) → j < 512 → i64_at page.new (8 * j) ≡ pos address }
{
    for j in 0..512usize {
        Native::write_address(address, j, page);
    }
}

/// Puts each of the first entries of `source` into the page twice. None where one is below 0.
pub fn double_entries(source: &[u8; 2048], count: usize, page: &mut [u8; 4096]) -> Option<()>
    requires { count ≤ 256 }
    ensures doubled { IfSome result (λ _. (j : ℕ) → j < 2 * count → i64_at page.new (8 * j) ≡ i64_at source.now (8 * (j / 2))) }
    ensures right { ((k : ℕ) → k < count → is_from_zero (i64_at source.now (8 * k)) ≡ true) → IsSome result }
{
    for k in 0..count {
        let entry = Native::address(source, k);
        if entry < 0 {
            return None;
        }
        let address = entry.cast_unsigned();
        Native::write_address(address, 2 * k, page);
        Native::write_address(address, 2 * k + 1, page);
    }
    Some(())
}
