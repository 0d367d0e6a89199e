//! The header of a file.

ghost use Rattle.std.specs.Prelude.{◌≡◌, ◌+◌, ◌*◌, ◌^◌, ◌<◌, ◌≤◌, pos, length, false, true, min, IfNone, IfSome};
ghost use Rattle.gd_format.specs.HeaderFault.{header_at, header_fault_of, is_block_size, is_dir_in, is_narrow, is_native, is_swapped, is_number, is_table_right, is_within, are_sizes_right, table_place, natural, numsync_field, header_of};

use crate::Layout;
use crate::fields::{i32_from, i64_from, u32_from};
use gd_format::{DbError, Format, Header};

fn is_between(z: i64, low: u64, high: u64) -> bool
    ensures { result ≡ is_within z low high }
{
    z >= 0 && low <= z.cast_unsigned() && z.cast_unsigned() <= high
}

fn is_same(z: i64, n: u64) -> bool
    ensures { result ≡ is_number z n }
{
    z >= 0 && z.cast_unsigned() == n
}

#[tactic(auto, unfolding(gd_format::specs::HeaderFault::is_swapped))]
fn has_swapped_magic(magic: u32) -> bool
    ensures { result ≡ is_swapped magic }
{
    magic == 0xce9a_5713
        || magic == 0xcf9a_5713
        || magic == 0xd19a_5713
        || magic == 0xcd9a_5713
        || magic == 0xd09a_5713
}

#[tactic(auto, unfolding(gd_format::specs::HeaderFault::is_narrow))]
fn has_narrow_magic(magic: u32) -> bool
    ensures { result ≡ is_narrow magic }
{
    magic == 0x1357_9acd || magic == 0x1357_9ad0
}

#[tactic(auto, unfolding(gd_format::specs::HeaderFault::is_native))]
fn has_native_magic(magic: u32) -> bool
    ensures { result ≡ is_native magic }
{
    magic == 0x1357_9ace || magic == 0x1357_9acf || magic == 0x1357_9ad1
}

// The block size, where it is one.
#[tactic(auto, unfolding(gd_format::specs::HeaderFault::is_block_size))]
fn block_size_of(block: i32) -> Option<u32>
    ensures none { IfNone result (is_block_size block ≡ false) }
    ensures some { IfSome result (λ n. (is_block_size block ≡ true) × (block ≡ pos n) × (512 ≤ n) × (n ≤ 1048576)) }
{
    if !is_between(i64::from(block), 512, 1_048_576) {
        return None;
    }
    let n = block.cast_unsigned();
    if n.is_power_of_two() { Some(n) } else { None }
}

/// The place of the table of free space, by the magic.
pub fn place_of_table(magic: u32) -> u32
    ensures is { result ≡ table_place magic }
    ensures below { result ≤ 72 }
{
    if magic == 0x1357_9ad1 { 72 } else { 40 }
}

// Does the directory have its size and lie in the file?
#[tactic(auto, unfolding(gd_format::specs::HeaderFault::is_dir_in))]
fn has_dir_in(bytes: &[u8], len: u64) -> bool
    requires { 40 ≤ length bytes.now }
    ensures { result ≡ is_dir_in (header_at bytes.now) len }
{
    let bits = i32_from(bytes, 20);
    if !is_between(i64::from(bits), 0, 24) {
        return false;
    }
    let size = 8 * (1u64 << bits.cast_unsigned());
    if !is_same(i64::from(i32_from(bytes, 16)), size) {
        return false;
    }
    if size > len {
        return false;
    }
    is_between(i64_from(bytes, 8), 0, len - size)
}

#[tactic(auto, unfolding(gd_format::specs::HeaderFault::are_sizes_right))]
fn has_right_sizes(bytes: &[u8], block: u32) -> bool
    requires size { 40 ≤ length bytes.now }
    requires block { (header_at bytes.now).block ≡ pos block }
    requires least { 512 ≤ block }
    ensures { result ≡ are_sizes_right (header_at bytes.now) }
{
    if !is_same(i64::from(i32_from(bytes, 24)), u64::from(block)) {
        return false;
    }
    is_same(
        i64::from(i32_from(bytes, 28)),
        u64::from((block - 112) / 24),
    )
}

#[tactic(auto, unfolding(gd_format::specs::HeaderFault::is_table_right))]
fn has_right_table(bytes: &[u8], block: u32) -> bool
    requires size { 80 ≤ length bytes.now }
    requires block { (header_at bytes.now).block ≡ pos block }
    requires least { 512 ≤ block }
    ensures { result ≡ is_table_right bytes.now }
{
    let place = place_of_table(u32_from(bytes, 0));
    let room = (block - (place + 16)) / 16;
    is_between(
        i64::from(i32_from(bytes, place as usize)),
        2,
        u64::from(room),
    )
}

fn natural_of(z: i64) -> u64
    ensures { result ≡ natural z }
{
    if z < 0 { 0 } else { z.cast_unsigned() }
}

fn natural_of_32(z: i32) -> u32
    ensures { result ≡ natural z }
{
    if z < 0 { 0 } else { z.cast_unsigned() }
}

// A field that the numsync format alone has.
fn numsync_field_from(bytes: &[u8], at: usize) -> u32
    requires field { at + 4 ≤ length bytes.now }
    requires front { 4 ≤ length bytes.now }
    ensures { result ≡ numsync_field bytes.now at }
{
    if u32_from(bytes, 0) == 0x1357_9ad1 {
        u32_from(bytes, at)
    } else {
        0
    }
}

impl Layout<8, 0> {
    /// The first fault of the header of a file of `len` bytes, which begins with `bytes`.
    #[tactic(auto, unfolding(gd_format::specs::HeaderFault::header_fault_of))]
    pub fn header_fault(bytes: &[u8], len: u64) -> Option<DbError>
        requires { min 80 len ≤ length bytes.now }
        ensures { result ≡ header_fault_of bytes.now len }
    {
        if len < 40 {
            return Some(DbError::ShortFile);
        }
        let magic = u32_from(bytes, 0);
        if has_swapped_magic(magic) {
            return Some(DbError::ByteSwapped);
        }
        if has_narrow_magic(magic) {
            return Some(DbError::WrongOffset);
        }
        if !has_native_magic(magic) {
            return Some(DbError::BadMagic);
        }
        if magic == 0x1357_9ad1 && len < 72 {
            return Some(DbError::ShortFile);
        }
        let Some(block) = block_size_of(i32_from(bytes, 4)) else {
            return Some(DbError::BlockSize);
        };
        if len < u64::from(block) {
            return Some(DbError::BadHeader);
        }
        if !has_dir_in(bytes, len) {
            return Some(DbError::BadHeader);
        }
        if !has_right_sizes(bytes, block) {
            return Some(DbError::BadHeader);
        }
        if !is_between(i64_from(bytes, 32), 0, 1 << 46) {
            return Some(DbError::BadHeader);
        }
        if !has_right_table(bytes, block) {
            return Some(DbError::BadHeader);
        }
        None
    }

    /// The header of a file that begins with `bytes`.
    #[tactic(auto, unfolding(gd_format::specs::HeaderFault::header_of))]
    pub fn read_header(bytes: &[u8]) -> Header
        requires { 80 ≤ length bytes.now }
        ensures { result ≡ header_of bytes.now }
    {
        let magic = u32_from(bytes, 0);
        Header {
            format: if magic == 0x1357_9ad1 {
                Format::Numsync
            } else {
                Format::Standard
            },
            magic,
            block: natural_of_32(i32_from(bytes, 4)),
            dir: natural_of(i64_from(bytes, 8)),
            dir_bits: natural_of_32(i32_from(bytes, 20)),
            elems: natural_of_32(i32_from(bytes, 28)),
            next_block: natural_of(i64_from(bytes, 32)),
            version: numsync_field_from(bytes, 40),
            numsync: numsync_field_from(bytes, 44),
            reserved: [
                numsync_field_from(bytes, 48),
                numsync_field_from(bytes, 52),
                numsync_field_from(bytes, 56),
                numsync_field_from(bytes, 60),
                numsync_field_from(bytes, 64),
                numsync_field_from(bytes, 68),
            ],
            avail_size: natural_of_32(i32_from(bytes, place_of_table(magic) as usize)),
        }
    }
}
