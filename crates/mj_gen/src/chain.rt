// The model of a chain of links, as a text.
ghost use Rattle.std.specs.Prelude.{◌≡◌, ◌+◌, ◌++◌, ◌<◌, ◌≤◌, ◌^◌, IfOk, codes};
ghost use Rattle.mj_io.specs.Sent.{Sent};
ghost use Rattle.fx_text.specs.Places.{padded};
ghost use Rattle.mj_gen.specs.Chain as spec;

use crate::growing::GrowingSink;
use crate::numbers::{high_bits, number_after};
use itoa::Buffer;
use mj_io::{Failed, NoMemory, Page, Sink, finish, send, send_unsigned};
use std::alloc::Global;

// A line that ends in a name with a number.
fn send_named<S: Sink>(sink: &mut S, page: &mut Page, label: &[u8], i: u32)
    ensures { Sent S.holds S.faults sink.old page.old (spec.named label.now i)
        sink.new page.new }
{
    send(sink, page, label);
    send_unsigned(sink, page, u64::from(i));
    send(sink, page, b"\"\n");
}

// Where a link that isn't the first starts.
fn send_later_place<S: Sink>(sink: &mut S, page: &mut Page, parent: u32)
    ensures { Sent S.holds S.faults sink.old page.old (spec.later_place parent)
        sink.new page.new }
{
    send_named(sink, page, b"parent = \"link", parent);
    send(sink, page, b"pos = [0, 0, \"-0.1\"]\n");
}

// Where a link starts.
fn send_place<S: Sink>(sink: &mut S, page: &mut Page, i: u32)
    requires { 1 ≤ i }
    ensures { Sent S.holds S.faults sink.old page.old (spec.place_text i) sink.new page.new }
{
    if i == 1 {
        send(sink, page, b"pos = [0, 0, \"0.5\"]\nquat = [1, 0, 1, 0]\n");
    } else {
        send_later_place(sink, page, i - 1);
    }
}

// A number below a million with six digits.
fn send_six_digits<S: Sink>(sink: &mut S, page: &mut Page, n: u64)
    ensures { Sent S.holds S.faults sink.old page.old (padded 6 n) sink.new page.new }
{
    let mut buffer = Buffer::new();
    let digits = buffer.format(n).as_bytes();
    let zeros = [b'0'; 6];
    send(sink, page, &zeros[..6usize.saturating_sub(digits.len())]);
    send(sink, page, digits);
}

// A mass of 0.05 and so many millionths.
fn send_mass<S: Sink>(sink: &mut S, page: &mut Page, r: u64)
    requires { r < 2 ^ 16 }
    ensures { Sent S.holds S.faults sink.old page.old (spec.mass_text r) sink.new page.new }
{
    send(sink, page, b"0.");
    send_six_digits(sink, page, 50_000 + r);
}

// The inertia of a link.
fn send_inertial<S: Sink>(sink: &mut S, page: &mut Page, r: u64)
    requires { r < 2 ^ 16 }
    ensures { Sent S.holds S.faults sink.old page.old (spec.inertial_text r)
        sink.new page.new }
{
    send(
        sink,
        page,
        b"inertial = { pos = [0, 0, \"-0.05\"], mass = \"",
    );
    send_mass(sink, page, r);
    send(
        sink,
        page,
        b"\", diaginertia = [\"0.001\", \"0.001\", \"0.001\"] }\n",
    );
}

// The axis of a link's hinge.
fn send_axis<S: Sink>(sink: &mut S, page: &mut Page, i: u32)
    ensures { Sent S.holds S.faults sink.old page.old (spec.axis_text i) sink.new page.new }
{
    let text: &[u8] = if i % 2 == 1 {
        b"axis = [0, 1, 0]\n"
    } else {
        b"axis = [1, 0, 0]\n"
    };
    send(sink, page, text);
}

// The hinge of a link.
fn send_joint<S: Sink>(sink: &mut S, page: &mut Page, i: u32)
    ensures { Sent S.holds S.faults sink.old page.old (spec.joint_text i) sink.new page.new }
{
    send_named(sink, page, b"[[body.joint]]\nname = \"j", i);
    send_axis(sink, page, i);
    send(sink, page, b"range = [-2, 2]\ndamping = \"0.05\"\n");
}

// The capsule of a link.
fn send_geom<S: Sink>(sink: &mut S, page: &mut Page)
    ensures { Sent S.holds S.faults sink.old page.old spec.geom_text sink.new page.new }
{
    send(
        sink,
        page,
        b"[[body.geom]]\ntype = \"capsule\"\nsize = [\"0.02\", \"0.03\"]\npos = [0, 0, \"-0.05\"]\n",
    );
}

// Link `i`, from 1, whose mass is drawn as `r`.
#[tactic(auto, unfolding(crate::specs::Chain::link_text))]
fn send_link<S: Sink>(sink: &mut S, page: &mut Page, i: u32, r: u64)
    requires first { 1 ≤ i }
    requires drawn { r < 2 ^ 16 }
    ensures { Sent S.holds S.faults sink.old page.old (spec.link_text i r) sink.new page.new }
{
    send_named(sink, page, b"\n[[body]]\nname = \"link", i);
    send_place(sink, page, i);
    send_inertial(sink, page, r);
    send_joint(sink, page, i);
    send_geom(sink, page);
}

// The motor of link `i`.
#[tactic(auto, unfolding(crate::specs::Chain::motor_text))]
fn send_motor<S: Sink>(sink: &mut S, page: &mut Page, i: u32)
    ensures { Sent S.holds S.faults sink.old page.old (spec.motor_text i) sink.new page.new }
{
    send_named(sink, page, b"\n[[motor]]\njoint = \"j", i);
    send(sink, page, b"gear = \"0.1\"\nctrlrange = [-1, 1]\n");
}

// The links, whose masses are drawn one after another.
fn send_links<S: Sink>(sink: &mut S, page: &mut Page, seed: u32, links: u32)
    ensures { Sent S.holds S.faults sink.old page.old (spec.links_text seed links)
        sink.new page.new }
{
    let mut number = u64::from(seed);
    for k in 0..links {
        number = number_after(number);
        send_link(sink, page, k + 1, high_bits(number));
    }
}

// The motors of the links.
fn send_motors<S: Sink>(sink: &mut S, page: &mut Page, links: u32)
    ensures { Sent S.holds S.faults sink.old page.old (spec.motors_text links)
        sink.new page.new }
{
    for k in 0..links {
        send_motor(sink, page, k + 1);
    }
}

// The whole model.
#[tactic(auto, unfolding(crate::specs::Chain::chain_text))]
fn send_chain<S: Sink>(sink: &mut S, page: &mut Page, seed: u32, links: u32)
    ensures { Sent S.holds S.faults sink.old page.old (spec.chain_text seed links)
        sink.new page.new }
{
    send(
        sink,
        page,
        b"[option]\ntimestep = \"0.002\"\n\n[[geom]]\ntype = \"plane\"\n",
    );
    send_links(sink, page, seed, links);
    send_motors(sink, page, links);
}

/// The text of a model of a chain of so many links above a plane. Each link is a capsule on a hinge,
/// which turns about y at links 1, 3, 5 and so on and about x at the others; it hangs from the link
/// before it and has a motor. Its mass, from 0.05 to 0.115535, is drawn from the seed.
///
/// # Errors
///
/// `NoMemory` where memory was wanted and not found.
pub fn chain_model(alloc: Global, seed: u32, links: u32) -> Result<Vec<u8>, NoMemory>
    ensures { IfOk result (λ v. v.items ≡ spec.chain_text seed links) }
{
    let mut sink = GrowingSink::new(alloc);
    let mut page = Page::new();
    send_chain(&mut sink, &mut page, seed, links);
    match finish(&mut sink, &mut page) {
        Ok(()) => sink.into_bytes(),
        Err(Failed) => Err(NoMemory),
    }
}
