// What the commands of the tests are given: words, files, a cabinet and a sink that fail as they are told.
ghost use Rattle.std.specs.Prelude.{◌≤◌};

use mj_io::{MemCabinet, MemSink};
use mj_top::run_words;
use std::alloc::{AllocError, Global};
use std::test::Fail;
use std::thread::Threads;

/// A body of 1 kg that slides along z and falls with 8 m/s².
pub const SLIDE: &str =
    "[option]\ntimestep = \"0.25\"\ngravity = [0, 0, -8]\n[[body]]\nname = \"a\"\ninertial = { mass = 1 }\n[[body.joint]]\nname = \"z\"\ntype = \"slide\"\n";

/// The same half a metre below the limit that pushes it back.
pub const LIMITED: &str =
    "[option]\ntimestep = \"0.25\"\ngravity = [0, 0, -8]\n[[body]]\nname = \"a\"\ninertial = { mass = 1 }\n[[body.joint]]\nname = \"z\"\ntype = \"slide\"\nrange = [0, 4]\nsolreflimit = [-1, -1]\nsolimplimit = [\"0.5\", \"0.5\", 1, \"0.5\", 1]\n[keyframe]\nqpos = [\"-0.5\"]\n";

/// The trace of its first step with its dual: the force of the limit's row is 4.5 N.
pub const LIMITED_TRACE: &str =
    "trace 1 nq=1 nv=1 steps=1\nstep 1\nq -3087007744\nv -3758096384\na -15032385536\nresidual 0\nradius 0 0\nrows 1 idle 0\nrow 1 low 1 4718592 4718592 4718592\nstop tolerance 2\ncost -12534142897764475283353632768 -12534142897764475283353632768\ndual 1 1\nd 1 281474976710656 -38654705664 16777216\nend done\n";

/// The same, but for the upper end of the row's box.
const BROKEN_TRACE: &str =
    "trace 1 nq=1 nv=1 steps=1\nstep 1\nq -3087007744\nv -3758096384\na -15032385536\nresidual 0\nradius 0 0\nrows 1 idle 0\nrow 1 low 1 4718592 4718592 4718593\nstop tolerance 2\ncost -12534142897764475283353632768 -12534142897764475283353632768\ndual 1 1\nd 1 281474976710656 -38654705664 16777216\nend done\n";

/// A body of 1 kg that rests.
const REST: &str =
    "[option]\ntimestep = \"0.25\"\ngravity = [0, 0, 0]\n[[body]]\nname = \"a\"\ninertial = { mass = 1 }\n[[body.joint]]\nname = \"z\"\ntype = \"slide\"\n";

/// The same under a motor of gear 2, whose controls are cut to -1 and 1.
const DRIVEN: &str =
    "[option]\ntimestep = \"0.25\"\ngravity = [0, 0, 0]\n[[body]]\nname = \"a\"\ninertial = { mass = 1 }\n[[body.joint]]\nname = \"z\"\ntype = \"slide\"\n[[motor]]\njoint = \"z\"\ngear = 2\nctrlrange = [-1, 1]\n";

/// The same under two motors.
const TWO_MOTORS: &str =
    "[option]\ntimestep = \"0.25\"\ngravity = [0, 0, 0]\n[[body]]\nname = \"a\"\ninertial = { mass = 1 }\n[[body.joint]]\nname = \"z\"\ntype = \"slide\"\n[[motor]]\njoint = \"z\"\n[[motor]]\njoint = \"z\"\n";

// The files that every command here may read: models, tapes, and dumps.
const FILES: [(&str, &str); 12] = [
    ("slide", SLIDE),
    ("limited", LIMITED),
    ("rest", REST),
    ("driven", DRIVEN),
    ("two", TWO_MOTORS),
    ("t", "1\n0.5\n-3\n"),
    ("u", "-3\n0.5\n1\n"),
    ("short", "1,2\n3,4\n"),
    ("bad", "1,2\n3,4\n5,x\n"),
    ("wide", "1,2,3\n"),
    ("dump", LIMITED_TRACE),
    ("broken", BROKEN_TRACE),
];

/// The words of a line, as owned texts.
pub fn words_of(alloc: Global, line: &str) -> Result<Vec<String>, AllocError> {
    let mut words = Vec::new(alloc);
    for word in line.split_whitespace() {
        words.push(String::from_str(alloc, word)?)?;
    }
    Ok(words)
}

fn add_file(
    alloc: Global,
    files: &mut Vec<(String, Vec<u8>)>,
    name: &str,
    bytes: &[u8],
) -> Result<(), AllocError> {
    files.push((
        String::from_str(alloc, name)?,
        Vec::from_slice(alloc, bytes)?,
    ))?;
    Ok(())
}

/// A cabinet of all files and of one more under the name `given`, whose reads of these numbers fail.
pub fn cabinet_of(alloc: Global, given: &[u8], fails: &[u64]) -> Result<MemCabinet, AllocError> {
    let mut files = Vec::new(alloc);
    add_file(alloc, &mut files, "given", given)?;
    for (name, text) in FILES {
        add_file(alloc, &mut files, name, text.as_bytes())?;
    }
    Ok(MemCabinet::new(files, Vec::from_slice(alloc, fails)?))
}

/// A sink of ample room that takes at most so many bytes at once, whose writes of these numbers fail.
pub fn sink_of(alloc: Global, fails: &[u64], most: usize) -> Result<MemSink, Fail>
    requires { 1 ≤ most }
{
    Ok(MemSink::new(alloc, 1 << 20, Vec::from_slice(alloc, fails)?, most)?)
}

/// What a command answers, what its sink holds, and how many of its writes failed.
#[derive(Drop)]
pub struct Told {
    pub code: u8,
    pub text: Vec<u8>,
    pub faults: u64,
}

/// What is told of a command that ended so.
pub fn told_of(alloc: Global, code: u8, sink: &MemSink) -> Result<Told, Fail> {
    Ok(Told {
        code,
        text: Vec::from_slice(alloc, sink.held())?,
        faults: sink.faults(),
    })
}

/// Runs a command over the files, with these reads and these writes failing, each write of at most so
/// many bytes.
pub fn tell<R: Threads + Sync>(
    rt: &R,
    alloc: Global,
    line: &str,
    reads: &[u64],
    writes: &[u64],
    most: usize,
) -> Result<Told, Fail>
    requires { 1 ≤ most }
{
    let words = words_of(alloc, line)?;
    let mut cabinet = cabinet_of(alloc, b"", reads)?;
    let mut sink = sink_of(alloc, writes, most)?;
    let status = run_words(rt, alloc, words.as_slice(), &mut cabinet, &mut sink);
    told_of(alloc, status.code(), &sink)
}
