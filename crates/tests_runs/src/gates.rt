// Gates ahead of a batch's runs: two tapes run side by side, and never more than there are workers.
use crate::input::{Told, cabinet_of, sink_of, told_of, words_of};
use mj_fan::Gate;
use mj_top::run_gated;
use std::alloc::Global;
use std::sync::atomic::{AtomicBool, AtomicU64, Ordering};
use std::test::Fail;
use std::thread;
use std::thread::Threads;

// After how many looks a job lets other threads run.
const LOOKS_A_TURN: u32 = 1_024;

// Whether a job sees a mark in so many looks.
fn looks_for(mark: &AtomicBool, looks: u32) -> bool {
    for look in 0..looks {
        if mark.load(Ordering::SeqCst) {
            return true;
        }
        if look % LOOKS_A_TURN == 0 {
            thread::yield_now();
        }
    }
    false
}

// What a batch comes to, with a gate ahead of each of its runs.
fn tell_gated<R: Threads + Sync, G: Gate>(
    rt: &R,
    alloc: Global,
    words: &[String],
    gate: &G,
) -> Result<Told, Fail> {
    let mut cabinet = cabinet_of(alloc, b"", &[])?;
    let mut sink = sink_of(alloc, &[], 1_000_000)?;
    let status = run_gated(rt, alloc, words, &mut cabinet, &mut sink, gate);
    told_of(alloc, status.code(), &sink)
}

// ---- two at once

// How often a job looks for the other's mark.
const LOOKS: u32 = 100_000_000;

// A gate at which two jobs meet: each marks that it has begun, and looks for the other's mark.
#[derive(Drop)]
struct Meeting {
    begun: [AtomicBool; 2],
    met: [AtomicBool; 2],
}

impl Gate for Meeting {
    fn before(&self, job: usize) {
        self.begun[job % 2].store(true, Ordering::SeqCst);
        if looks_for(&self.begun[1 - job % 2], LOOKS) {
            self.met[job % 2].store(true, Ordering::SeqCst);
        }
    }
}

#[test]
fn two_tapes_meet(rt: HostRuntime) -> Result<(), Fail> {
    let alloc = rt.alloc();
    let meeting = Meeting {
        begun: [AtomicBool::new(false), AtomicBool::new(false)],
        met: [AtomicBool::new(false), AtomicBool::new(false)],
    };
    let line = "batch --model driven --steps 3 --tape t --tape t --workers 2";
    let words = words_of(alloc, line)?;
    let told = tell_gated(&rt, alloc, words.as_slice(), &meeting)?;
    let text =
        "job 1\nsteps 3 of 3\nend done\nrows 0 idle 0\nsweeps 0 tolerance 0 limit 0 none 3\ngap 0\nresidual 0\nq 0.375000000\nv 0.250000000\njob 2\nsteps 3 of 3\nend done\nrows 0 idle 0\nsweeps 0 tolerance 0 limit 0 none 3\ngap 0\nresidual 0\nq 0.375000000\nv 0.250000000\n";
    assert_eq!(rt; told.code, 0);
    assert_eq!(rt; told.text.as_slice(), text.as_bytes());
    assert!(rt; meeting.met[0].load(Ordering::SeqCst));
    assert!(rt; meeting.met[1].load(Ordering::SeqCst));
    Ok(())
}

// ---- never more than the workers

// How many looks a job stays in the gate, so that another would find it there.
const STAY: u32 = 20_000;

// A gate that counts how many jobs are in it at once, keeps whether there were ever more than `most`,
// and adds up the jobs' numbers.
#[derive(Drop)]
struct Turnstile {
    most: u64,
    never: AtomicBool,
    inside: AtomicU64,
    is_crowded: AtomicBool,
    numbers: AtomicU64,
}

impl Gate for Turnstile {
    fn before(&self, job: usize) {
        self.numbers.fetch_add(job as u64, Ordering::SeqCst);
        if self.inside.fetch_add(1, Ordering::SeqCst) >= self.most {
            self.is_crowded.store(true, Ordering::SeqCst);
        }
        let _ = looks_for(&self.never, STAY);
        self.inside.fetch_sub(1, Ordering::SeqCst);
    }
}

// The most tapes of a batch: 64, whose numbers add up to 2080.
#[test]
fn no_more_tapes_run_at_once_than_there_are_workers(rt: HostRuntime) -> Result<(), Fail> {
    let alloc = rt.alloc();
    for (workers, most) in [("1", 1u64), ("2", 2), ("3", 3), ("8", 8)] {
        let mut words = words_of(alloc, "batch --model driven --steps 3 --workers")?;
        words.push(String::from_str(alloc, workers)?)?;
        for _ in 0..64 {
            words.push(String::from_str(alloc, "--tape")?)?;
            words.push(String::from_str(alloc, "t")?)?;
        }
        let turnstile = Turnstile {
            most,
            never: AtomicBool::new(false),
            inside: AtomicU64::new(0),
            is_crowded: AtomicBool::new(false),
            numbers: AtomicU64::new(0),
        };
        let told = tell_gated(&rt, alloc, words.as_slice(), &turnstile)?;
        assert_eq!(rt; told.code, 0);
        assert_eq!(rt; turnstile.numbers.load(Ordering::SeqCst), 2080);
        assert!(rt; !turnstile.is_crowded.load(Ordering::SeqCst));
    }
    Ok(())
}
