// What no clause says of jobs on threads: how many are at work at once, and when the gate is called.
use mj_fan::{Gate, Job, fan};
use std::sync::atomic::{AtomicBool, AtomicU64, AtomicUsize, Ordering};
use std::thread;

/// How often a job lets other threads run, at least and at most.
const TURNS: u32 = 100;

const MOST_TURNS: u32 = 10_000_000;

// How many calls there were, and for which of 64 jobs, a bit for each.
#[derive(Drop)]
struct Calls {
    count: AtomicUsize,
    jobs: AtomicU64,
}

impl Calls {
    fn new() -> Calls {
        Calls {
            count: AtomicUsize::new(0),
            jobs: AtomicU64::new(0),
        }
    }

    fn note(&self, job: usize) {
        self.count.fetch_add(1, Ordering::SeqCst);
        self.jobs.fetch_or(1 << (job % 64), Ordering::SeqCst);
    }

    fn has(&self, job: usize) -> bool {
        self.jobs.load(Ordering::SeqCst) & (1 << (job % 64)) != 0
    }

    fn are_one_for_each(&self) -> bool {
        self.count.load(Ordering::SeqCst) == 64 && self.jobs.load(Ordering::SeqCst) == u64::MAX
    }
}

// What is seen of the jobs: how many are at work, how many were at most, the gate's calls and the runs,
// and whether a run began before its gate. A job works until `wanted` jobs were at work at once.
#[derive(Drop)]
struct Watch {
    wanted: usize,
    at_work: AtomicUsize,
    most: AtomicUsize,
    gates: Calls,
    runs: Calls,
    is_late: AtomicBool,
}

impl Watch {
    fn new(wanted: usize) -> Watch {
        Watch {
            wanted,
            at_work: AtomicUsize::new(0),
            most: AtomicUsize::new(0),
            gates: Calls::new(),
            runs: Calls::new(),
            is_late: AtomicBool::new(false),
        }
    }

    fn work(&self) {
        let others = self.at_work.fetch_add(1, Ordering::SeqCst);
        self.most
            .fetch_max(others.wrapping_add(1), Ordering::SeqCst);
        for turn in 0..MOST_TURNS {
            if turn >= TURNS && self.most.load(Ordering::SeqCst) >= self.wanted {
                break;
            }
            thread::yield_now();
        }
        self.at_work.fetch_sub(1, Ordering::SeqCst);
    }
}

impl Gate for Watch {
    fn before(&self, job: usize) {
        self.gates.note(job);
    }
}

// A job that counts its runs and is seen.
#[derive(Clone, Copy)]
struct Visit<'a> {
    number: usize,
    runs: u8,
    watch: &'a Watch,
}

impl<'a> Job for Visit<'a> {
    ghost use Rattle.std.specs.Prelude.{◌≡◌, ◌+◌, ◌%◌, ◌^◌};

    ghost number_of = { λ v. v.number };

    ghost ran = { λ old new. new.runs ≡ (old.runs + 1) % 2 ^ 8 };

    fn number(&self) -> usize {
        self.number
    }

    fn run(&mut self) {
        self.runs = self.runs.wrapping_add(1);
        if !self.watch.gates.has(self.number) {
            self.watch.is_late.store(true, Ordering::SeqCst);
        }
        self.watch.runs.note(self.number);
        self.watch.work();
    }
}

// Gives each job the number of its place.
fn set_numbers(jobs: &mut [Visit]) {
    for i in 0..jobs.len() {
        jobs[i].number = i;
    }
}

// Whether each job stands at its number and ran once.
fn are_in_place(jobs: &[Visit]) -> bool {
    for i in 0..jobs.len() {
        if jobs[i].number != i || jobs[i].runs != 1 {
            return false;
        }
    }
    true
}

#[test]
fn as_many_jobs_are_at_work_as_there_are_pieces(rt: HostRuntime) {
    for pieces in 1..9 {
        let watch = Watch::new(pieces);
        let mut jobs = [Visit {
            number: 0,
            runs: 0,
            watch: &watch,
        }; 64];
        set_numbers(&mut jobs);
        fan(&rt, &mut jobs, pieces, &watch);
        assert_eq!(rt; watch.most.load(Ordering::SeqCst), pieces);
        assert!(rt; watch.gates.are_one_for_each());
        assert!(rt; watch.runs.are_one_for_each());
        assert!(rt; !watch.is_late.load(Ordering::SeqCst));
        assert!(rt; are_in_place(&jobs));
    }
}
