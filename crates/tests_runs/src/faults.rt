// Reads and writes that fail in turn: nothing is written, or a prefix of the whole text.
use crate::input::{LIMITED, LIMITED_TRACE, cabinet_of, sink_of, tell, words_of};
use mj_top::run_words;
use std::test::Fail;

const SLIDE_TRACE: &str =
    "trace 1 nq=1 nv=1 steps=3\nstep 1\nq -2147483648\nv -8589934592\na -34359738368\nresidual 0\nradius 0 0\nrows 0 idle 0\nstop none\ncost 0 0\nstep 2\nq -6442450944\nv -17179869184\na -34359738368\nresidual 0\nradius 0 0\nrows 0 idle 0\nstop none\ncost 0 0\nstep 3\nq -12884901888\nv -25769803776\na -34359738368\nresidual 0\nradius 0 0\nrows 0 idle 0\nstop none\ncost 0 0\nend done\n";

// Forces of 1 + 2 and of 3 + 4 on 1 kg.
const TWO_MOTORS_TRACE: &str =
    "trace 1 nq=1 nv=1 steps=2\nstep 1\nq 805306368\nv 3221225472\na 12884901888\nresidual 0\nradius 0 0\nrows 0 idle 0\nstop none\ncost 0 0\nstep 2\nq 3489660928\nv 10737418240\na 30064771072\nresidual 0\nradius 0 0\nrows 0 idle 0\nstop none\ncost 0 0\nend done\n";

// A ball around each step's acceleration, which is exact.
const SLIDE_BALLS: &str =
    "trace 1 nq=1 nv=1 steps=3\nstep 1\nq -2147483648\nv -8589934592\na -34359738368\nresidual 0\nradius 0 0\nrows 0 idle 0\nstop none\ncost 0 0\nball 39 549755813888 0\nstep 2\nq -6442450944\nv -17179869184\na -34359738368\nresidual 0\nradius 0 0\nrows 0 idle 0\nstop none\ncost 0 0\nball 39 549755813888 0\nstep 3\nq -12884901888\nv -25769803776\na -34359738368\nresidual 0\nradius 0 0\nrows 0 idle 0\nstop none\ncost 0 0\nball 39 549755813888 0\nend done\n";

// The limit's force by itself is the solver's.
const LIMITED_INVERSE: &str =
    "trace 1 nq=1 nv=1 steps=1\nstep 1\nq -3087007744\nv -3758096384\na -15032385536\nresidual 0\nradius 0 0\nrows 1 idle 0\nrow 1 low 1 4718592 4718592 4718592\nstop tolerance 2\ncost -12534142897764475283353632768 -12534142897764475283353632768\ninverse 0 0\nx 1 4718592\nend done\n";

const TWO_MOTORS_INVERSE: &str =
    "trace 1 nq=1 nv=1 steps=2\nstep 1\nq 805306368\nv 3221225472\na 12884901888\nresidual 0\nradius 0 0\nrows 0 idle 0\nstop none\ncost 0 0\ninverse 0 0\nstep 2\nq 3489660928\nv 10737418240\na 30064771072\nresidual 0\nradius 0 0\nrows 0 idle 0\nstop none\ncost 0 0\ninverse 0 0\nend done\n";

const BATCH: &str =
    "job 1\nsteps 3 of 3\nend done\nrows 0 idle 0\nsweeps 0 tolerance 0 limit 0 none 3\ngap 0\nresidual 0\nq 0.375000000\nv 0.250000000\njob 2\nsteps 3 of 3\nend done\nrows 0 idle 0\nsweeps 0 tolerance 0 limit 0 none 3\ngap 0\nresidual 0\nq -0.125000000\nv 0.250000000\n";

const CHAIN: &str =
    "[option]\ntimestep = \"0.002\"\n\n[[geom]]\ntype = \"plane\"\n\n[[body]]\nname = \"link1\"\npos = [0, 0, \"0.5\"]\nquat = [1, 0, 1, 0]\ninertial = { pos = [0, 0, \"-0.05\"], mass = \"0.082323\", diaginertia = [\"0.001\", \"0.001\", \"0.001\"] }\n[[body.joint]]\nname = \"j1\"\naxis = [0, 1, 0]\nrange = [-2, 2]\ndamping = \"0.05\"\n[[body.geom]]\ntype = \"capsule\"\nsize = [\"0.02\", \"0.03\"]\npos = [0, 0, \"-0.05\"]\n\n[[motor]]\njoint = \"j1\"\ngear = \"0.1\"\nctrlrange = [-1, 1]\n";

// No step was done: nothing was summed.
const NO_STEPS: &str =
    "steps 0 of 0\nend done\nrows 0 idle 0\nsweeps 0 tolerance 0 limit 0 none 0\ngap 0\nresidual 0\nq 0.000000000\nv 0.000000000\n";

// A command, how many files it reads, and, where all reads and writes go well, its status and its text.
const COMMANDS: [(&str, u64, u8, &str); 14] = [
    ("run --model slide --steps 3", 1, 0, SLIDE_TRACE),
    (
        "run --model limited --steps 1 --dual yes",
        1,
        0,
        LIMITED_TRACE,
    ),
    (
        "run --model two --steps 2 --tape short",
        2,
        0,
        TWO_MOTORS_TRACE,
    ),
    (
        "run --model two --steps 3 --tape short",
        2,
        5,
        "refused tape 1 Short 2\n",
    ),
    (
        "run --model two --steps 9 --tape bad",
        2,
        5,
        "refused tape 1 BadNumber 3 2\n",
    ),
    (
        "run --model two --steps 3 --tape wide",
        2,
        5,
        "refused tape 1 Width 1\n",
    ),
    (
        "batch --model driven --steps 3 --tape t --tape u --workers 2",
        3,
        0,
        BATCH,
    ),
    ("run --model slide --steps 3 --ball yes", 1, 0, SLIDE_BALLS),
    ("inverse --model limited --steps 1", 1, 0, LIMITED_INVERSE),
    (
        "inverse --model two --steps 2 --tape short",
        2,
        0,
        TWO_MOTORS_INVERSE,
    ),
    ("check --dual dump", 1, 0, "accepted 1\n"),
    ("check --dual broken", 1, 9, "rejected 9 Box\n"),
    ("gen --links 1 --seed 7", 0, 0, CHAIN),
    ("bench --links 1 --seed 7 --steps 0", 0, 0, NO_STEPS),
];

#[test]
fn a_read_that_fails_leaves_nothing(rt: HostRuntime) -> Result<(), Fail> {
    for (line, reads, code, text) in COMMANDS {
        for k in 1..reads + 2 {
            let told = tell(&rt, rt.alloc(), line, &[k], &[], 1_000_000)?;
            let is_read = k <= reads;
            assert_eq!(rt; told.code, if is_read { 6 } else { code });
            assert_eq!(rt;
                told.text.as_slice(),
                if is_read { b"" } else { text.as_bytes() }
            );
            assert_eq!(rt; told.faults, 0);
        }
    }
    Ok(())
}

// Each byte is a write: the k-th that fails leaves k - 1 bytes, in a batch also between two jobs.
#[test]
fn a_write_that_fails_leaves_a_prefix(rt: HostRuntime) -> Result<(), Fail> {
    for (line, _reads, code, text) in COMMANDS {
        for k in 0..text.len() + 1 {
            let told = tell(&rt, rt.alloc(), line, &[], &[k as u64 + 1], 1)?;
            let is_written = k < text.len();
            assert_eq!(rt; told.code, if is_written { 7 } else { code });
            assert_eq!(rt;
                told.text.as_slice(),
                text.as_bytes().get(..k).ok_or("a prefix")?
            );
            assert_eq!(rt; told.faults, if is_written { 1 } else { 0 });
        }
    }
    Ok(())
}

// Each prefix of a model's file is judged, or run: no fault of reading or writing, and memory is there.
#[test]
fn each_prefix_is_judged(rt: HostRuntime) -> Result<(), Fail> {
    let alloc = rt.alloc();
    let words = words_of(alloc, "run --model given --steps 1")?;
    for length in 0..LIMITED.len() + 1 {
        let prefix = LIMITED.as_bytes().get(..length).ok_or("a prefix")?;
        let mut cabinet = cabinet_of(alloc, prefix, &[])?;
        let mut sink = sink_of(alloc, &[], 1_000_000)?;
        let status = run_words(&rt, alloc, words.as_slice(), &mut cabinet, &mut sink);
        assert!(rt; matches!(status.code(), 0 | 3 | 4));
    }
    Ok(())
}
