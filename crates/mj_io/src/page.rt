// A page through which texts go out: bytes are gathered in it until it is full or flushed.
ghost use Rattle.std.specs.Prelude.{◌≡◌, ◌+◌, ◌≤◌, ◌<◌, ◌↔◌, ℕ, List, [], ◌∷◌, ◌++◌, length, take, true, IsTrue, is_ok, decimal};
ghost use Rattle.std.specs.Fmt.{signed_decimal};
ghost use Rattle.mj_io.specs.Sent as spec;

use crate::sink::{Failed, Sink, put};
use itoa::Buffer;
use std::marker::Model;

/// How many bytes a page holds.
pub const PAGE_SIZE: usize = 65536;

/// A fixed buffer of `PAGE_SIZE` bytes through which texts go out to a sink, and whether the writing
/// still goes on: it stops at the first write that fails, and nothing is written after. It takes no
/// memory. In contracts it is a `Gathered`.
#[derive(Drop)]
pub struct Page {
    bytes: [u8; PAGE_SIZE],
    len: usize,
    going: bool,
}

impl Model for Page {
    ghost use Rattle.std.specs.Prelude.{take, ◌≤◌};
    ghost use Rattle.mj_io.specs.declared.page.TheConstants.{PAGE_SIZE};
    ghost use Rattle.mj_io.specs.Sent.{Gathered};

    ghost Value = { Gathered };

    ghost view = { λ p. record { pending = take p.len p.bytes; going = p.going } };

    ghost invariant = { λ p. p.len ≤ PAGE_SIZE };
}

impl Page {
    /// An empty page, in a writing that goes on.
    pub fn new() -> Page
        ensures { result ≡ spec.fresh_page }
    {
        Page {
            bytes: [0; PAGE_SIZE],
            len: 0,
            going: true,
        }
    }

    /// Whether the writing goes on: no write has failed.
    pub fn is_going(&self) -> bool
        ensures { result ≡ self.now.going }
    {
        self.going
    }

    // Whether `count` more bytes have room.
    fn fits(&self, count: usize) -> bool
        ensures { IsTrue result ↔ (length self.now.pending + count ≤ spec.page_size) }
    {
        count <= PAGE_SIZE - self.len
    }

    fn gather(&mut self, bytes: &[u8])
        requires { length self.old.pending + length bytes.now ≤ spec.page_size }
        ensures { self.new ≡
            record { pending = self.old.pending ++ bytes.now; going = self.old.going } }
    {
        let end = self.len + bytes.len();
        self.bytes[self.len..end].copy_from_slice(bytes);
        self.len = end;
    }
}

// Writes `bytes` where the writing goes on, and says whether it still does.
fn direct<S: Sink>(sink: &mut S, going: bool, bytes: &[u8]) -> bool
    ensures { spec.Sent S.holds S.faults sink.old (spec.empty_page going) bytes.now sink.new
        (spec.empty_page result) }
{
    if !going {
        return false;
    }
    match put(sink, bytes) {
        Ok(()) => true,
        Err(Failed) => false,
    }
}

/// Writes what the page holds, where the writing goes on, and empties the page. Where nothing is
/// pending, nothing is written.
pub fn flush<S: Sink>(sink: &mut S, page: &mut Page)
    ensures sent { spec.Sent S.holds S.faults sink.old page.old [] sink.new page.new }
    ensures empty { page.new.pending ≡ [] }
{
    let going = direct(sink, page.going, &page.bytes[..page.len]);
    page.len = 0;
    page.going = going;
}

// Begins an empty page with `bytes`, or hands a piece that is longer than a page on directly.
fn begin<S: Sink>(sink: &mut S, page: &mut Page, bytes: &[u8])
    requires { page.old.pending ≡ [] }
    ensures { spec.Sent S.holds S.faults sink.old page.old bytes.now sink.new page.new }
{
    if page.fits(bytes.len()) {
        page.gather(bytes);
    } else {
        page.going = direct(sink, page.going, bytes);
    }
}

// Flushes the page and begins it anew with `bytes`.
fn turn<S: Sink>(sink: &mut S, page: &mut Page, bytes: &[u8])
    ensures { spec.Sent S.holds S.faults sink.old page.old bytes.now sink.new page.new }
{
    flush(sink, page);
    begin(sink, page, bytes);
}

/// Sends `bytes` to the sink through the page. Where the page has room they are gathered and nothing
/// is written; else the page is flushed first, and a piece longer than a page goes out directly.
pub fn send<S: Sink>(sink: &mut S, page: &mut Page, bytes: &[u8])
    ensures sent { spec.Sent S.holds S.faults sink.old page.old bytes.now sink.new page.new }
    ensures gathers { length page.old.pending + length bytes.now ≤ spec.page_size →
        page.new ≡ record { pending = page.old.pending ++ bytes.now; going = page.old.going } }
    ensures waits { length page.old.pending + length bytes.now ≤ spec.page_size
        → sink.new ≡ sink.old }
{
    if page.fits(bytes.len()) {
        page.gather(bytes);
    } else {
        turn(sink, page, bytes);
    }
}

/// Ends a writing: writes what the page holds, empties it, and says whether all went out.
pub fn finish<S: Sink>(sink: &mut S, page: &mut Page) -> Result<(), Failed>
    ensures sent { spec.Sent S.holds S.faults sink.old page.old [] sink.new
        (spec.empty_page (is_ok result)) }
    ensures ended { page.new ≡ spec.empty_page (is_ok result) }
{
    flush(sink, page);
    if page.going { Ok(()) } else { Err(Failed) }
}

/// Sends a signed number in decimal digits, with a `-` below zero. It is taken by reference, since
/// clauses then name it as it is, and not through its bits.
pub fn send_signed<S: Sink>(sink: &mut S, page: &mut Page, n: &i64)
    ensures sent { spec.Sent S.holds S.faults sink.old page.old (signed_decimal n.now)
        sink.new page.new }
    ensures waits { length page.old.pending + length (signed_decimal n.now) ≤ spec.page_size
        → sink.new ≡ sink.old }
{
    let mut buffer = Buffer::new();
    send(sink, page, buffer.format(*n).as_bytes());
}

/// Sends a signed number of up to 128 bits in decimal digits, with a `-` below zero.
pub fn send_wide<S: Sink>(sink: &mut S, page: &mut Page, n: &i128)
    ensures sent { spec.Sent S.holds S.faults sink.old page.old (signed_decimal n.now)
        sink.new page.new }
    ensures waits { length page.old.pending + length (signed_decimal n.now) ≤ spec.page_size
        → sink.new ≡ sink.old }
{
    let mut buffer = Buffer::new();
    send(sink, page, buffer.format(*n).as_bytes());
}

/// Sends an unsigned number in decimal digits.
pub fn send_unsigned<S: Sink>(sink: &mut S, page: &mut Page, n: u64)
    ensures sent { spec.Sent S.holds S.faults sink.old page.old (decimal n) sink.new page.new }
    ensures waits { length page.old.pending + length (decimal n) ≤ spec.page_size
        → sink.new ≡ sink.old }
{
    let mut buffer = Buffer::new();
    send(sink, page, buffer.format(n).as_bytes());
}

/// Sends a size or an index in decimal digits.
pub fn send_size<S: Sink>(sink: &mut S, page: &mut Page, n: usize)
    ensures sent { spec.Sent S.holds S.faults sink.old page.old (decimal n) sink.new page.new }
    ensures waits { length page.old.pending + length (decimal n) ≤ spec.page_size
        → sink.new ≡ sink.old }
{
    let mut buffer = Buffer::new();
    send(sink, page, buffer.format(n).as_bytes());
}
