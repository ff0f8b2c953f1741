// The bytes of a plunge file: the one home of tags, lengths and places, and the fields, written one by one, by the size of the plate.
// Each function that writes leaves all other bytes as they were.
#![tactic(auto)]

ghost use Rattle.std.specs.Prelude.{◌≡◌, ◌+◌, ◌≤◌, length};
ghost use Rattle.geometry.specs.declared.Size.TheVariants.{Small, Large};
ghost use Rattle.geometry.specs.Sizes.{size_of};
ghost use Rattle.fields.specs.Fields.{head_tag, head_size, head_bytes, plunge_tag, plunge_size, plunge_bytes, end_bytes, place};
ghost use Rattle.fields.specs.Fields.{head_field, head_field_of, plunge_field, end_field};
ghost use Rattle.fields.specs.Writing.{spliced};
ghost use Rattle.fields.specs.Fits.{HeadFits, PlungeFits};
ghost use Rattle.fields.specs.Lengths.{IsLength};

use geometry::{Head, Plunge, Size};

// ---- tags, lengths and places

// The bytes of a field before its content: a tag, and a length of two bytes.
pub const OPENING: usize = 3;

// The head's tag, the length of its content, the bytes of the whole field.
pub fn head_tag(size: Size) -> u8
    ensures { result ≡ head_tag size }
{
    match size {
        Size::Small => 1,
        Size::Large => 17,
    }
}

pub fn head_size(size: Size) -> u8
    ensures { result ≡ head_size size }
{
    match size {
        Size::Small => 3,
        Size::Large => 5,
    }
}

pub fn head_bytes(size: Size) -> usize
    ensures { result ≡ head_bytes size }
{
    OPENING + (head_size(size) as usize)
}

// A plunge's.
pub fn plunge_tag(size: Size) -> u8
    ensures { result ≡ plunge_tag size }
{
    match size {
        Size::Small => 2,
        Size::Large => 18,
    }
}

pub fn plunge_size(size: Size) -> u8
    ensures { result ≡ plunge_size size }
{
    match size {
        Size::Small => 4,
        Size::Large => 7,
    }
}

pub fn plunge_bytes(size: Size) -> usize
    ensures { result ≡ plunge_bytes size }
{
    OPENING + (plunge_size(size) as usize)
}

// Room for a plunge's field of either size.
pub const PLUNGE_ROOM: usize = 10;

// The end's, of either size.
pub const END_TAG: u8 = 3;

pub const END_SIZE: u8 = 4;

pub const END_BYTES: usize = OPENING + (END_SIZE as usize);

// Where the field with n plunges before it begins, in a file with this head.
pub fn place(head: Head, n: usize) -> usize
    requires { IsLength (place head n) }
    ensures { result ≡ place head n }
{
    let size = head.size();
    head_bytes(size) + plunge_bytes(size) * n
}

// ---- fields

// Writes a small plate's head to the first bytes.
fn put_small_head(out: &mut [u8], head: Head)
    requires { (head_bytes Small ≤ length out.old) × HeadFits Small head }
    ensures { out.new ≡ spliced out.old 0 (head_field_of Small head) }
{
    let kind = head.kind;
    let field = [
        head_tag(Size::Small),
        0,
        head_size(Size::Small),
        kind.byte(),
        head.width as u8,
        head.height as u8,
    ];
    out[..field.len()].copy_from_slice(&field);
}

// Writes a large plate's.
fn put_large_head(out: &mut [u8], head: Head)
    requires { head_bytes Large ≤ length out.old }
    ensures { out.new ≡ spliced out.old 0 (head_field_of Large head) }
{
    let kind = head.kind;
    let field = [
        head_tag(Size::Large),
        0,
        head_size(Size::Large),
        kind.byte(),
        numbers::first_byte(head.width),
        numbers::second_byte(head.width),
        numbers::first_byte(head.height),
        numbers::second_byte(head.height),
    ];
    out[..field.len()].copy_from_slice(&field);
}

// Writes the head's field to the first bytes.
pub fn put_head(out: &mut [u8], head: Head)
    requires { head_bytes (size_of head) ≤ length out.old }
    ensures { out.new ≡ spliced out.old 0 (head_field head) }
{
    let size = head.size();
    match size {
        Size::Small => put_small_head(out, head),
        Size::Large => put_large_head(out, head),
    }
}

// Writes the field of a small plate's plunge from a place on.
fn put_small_plunge(out: &mut [u8], at: usize, q: Plunge)
    requires { (at + plunge_bytes Small ≤ length out.old) × PlungeFits Small q }
    ensures { out.new ≡ spliced out.old at (plunge_field Small q) }
{
    let field = [
        plunge_tag(Size::Small),
        0,
        plunge_size(Size::Small),
        q.column as u8,
        q.row as u8,
        q.reach.0 as u8,
        q.depth,
    ];
    out[at..at + field.len()].copy_from_slice(&field);
}

// Writes that of a large plate's.
fn put_large_plunge(out: &mut [u8], at: usize, q: Plunge)
    requires { at + plunge_bytes Large ≤ length out.old }
    ensures { out.new ≡ spliced out.old at (plunge_field Large q) }
{
    let reach = q.reach.0;
    let field = [
        plunge_tag(Size::Large),
        0,
        plunge_size(Size::Large),
        numbers::first_byte(q.column),
        numbers::second_byte(q.column),
        numbers::first_byte(q.row),
        numbers::second_byte(q.row),
        numbers::first_byte(reach),
        numbers::second_byte(reach),
        q.depth,
    ];
    out[at..at + field.len()].copy_from_slice(&field);
}

// Writes a plunge's field from a place on.
pub fn put_plunge(size: Size, out: &mut [u8], at: usize, q: Plunge)
    requires { (at + plunge_bytes size ≤ length out.old) × PlungeFits size q }
    ensures { out.new ≡ spliced out.old at (plunge_field size q) }
{
    match size {
        Size::Small => put_small_plunge(out, at, q),
        Size::Large => put_large_plunge(out, at, q),
    }
}

// Writes the end field with the number of plunges from a place on.
pub fn put_end(out: &mut [u8], at: usize, number: usize)
    requires { at + end_bytes ≤ length out.old }
    ensures { out.new ≡ spliced out.old at (end_field number) }
{
    let high = number / 65536;
    let low = number % 65536;
    let field = [
        END_TAG,
        0,
        END_SIZE,
        numbers::low_byte(high / 256),
        numbers::low_byte(high),
        numbers::low_byte(low / 256),
        numbers::low_byte(low),
    ];
    out[at..at + field.len()].copy_from_slice(&field);
}
