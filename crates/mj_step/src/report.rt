// What a step tells, number by number.
ghost use Rattle.std.specs.Prelude.{◌≡◌, ◌+◌, ◌*◌, ◌^◌, ◌<◌, ◌≤◌, ◌-ℤ◌, ℕ, max, pos, length, unsigned_abs, slice_index_or};
ghost use Rattle.mj_factor.specs.Residuals.{greatest_to};
ghost use Rattle.mj_types.specs.Masses.{mass_radius_at, no_near};
ghost use Rattle.mj_types.specs.Parts.{number_at};

use fx_list::Array;
use fx_near::Near;
use fx_num::{Fix, Number};
use mj_types::{Mass, Model, Rows, StepReport};

// A list becomes a copy of another of its length.
pub(crate) fn copy_into(to: &mut Array<Fix<32>>, from: &[Fix<32>])
    requires { length from.now ≡ length to.old }
    ensures len { length to.new ≡ length to.old }
    ensures same { (i : ℕ) → i < length from.now → number_at to.new i ≡ number_at from.now i }
{
    for i in 0..from.len() {
        to.put(i, from[i]);
    }
}

// The force applied at a dof, less its bias force.
pub(crate) fn difference(tau: &Fix<32>, c: &Near<32>) -> Fix<32>
    requires tau { unsigned_abs tau.now.mid ≤ 2 ^ 52 }
    requires bias { unsigned_abs c.now.mid ≤ 2 ^ 52 }
    ensures value { result.mid ≡ tau.now.mid -ℤ c.now.mid }
    ensures small { unsigned_abs result.mid ≤ 2 ^ 53 }
{
    Number {
        mid: tau.mid - c.mid,
        rad: (),
    }
}

// The forces applied, less the bias forces.
pub(crate) fn fill_free_load(
    model: &Model,
    tau: &[Fix<32>],
    c: &[Near<32>],
    load: &mut Array<Fix<32>>,
)
    requires tau_room { length tau.now ≡ model.now.nv }
    requires bias_room { length c.now ≡ model.now.nv }
    requires room { length load.old ≡ model.now.nv }
    requires tau { (i : ℕ) → i < model.now.nv → unsigned_abs (number_at tau.now i) ≤ 2 ^ 52 }
    requires bias { (i : ℕ) → i < model.now.nv
        → unsigned_abs (slice_index_or c.now i no_near).mid ≤ 2 ^ 52 }
    ensures len { length load.new ≡ length load.old }
    ensures value { (i : ℕ) → i < model.now.nv → number_at load.new i
        ≡ number_at tau.now i -ℤ (slice_index_or c.now i no_near).mid }
    ensures small { (i : ℕ) → i < model.now.nv → unsigned_abs (number_at load.new i) ≤ 2 ^ 54 }
{
    for i in 0..model.nv {
        load.put(i, difference(&tau[i], &c[i]));
    }
}

// The larger of a radius and another.
fn larger<const F: u32>(most: u64, x: &Near<F>) -> u64
    ensures { result ≡ max most x.now.rad }
{
    most.max(x.rad)
}

// The largest radius in row `i` of the mass matrix.
fn largest_in_row(n: usize, mass: &Mass, i: usize) -> u64
    requires room { length mass.now.m ≡ n * n }
    requires row { i < n }
    requires few { n ≤ 64 }
    ensures { result ≡ greatest_to n (mass_radius_at n mass.now.m i) }
{
    let mut most = 0;
    for j in 0..n {
        most = larger(most, mass.m.entry(i * n + j));
    }
    most
}

// The largest radius of the mass matrix.
pub(crate) fn largest_in_mass(n: usize, mass: &Mass) -> u64
    requires room { length mass.now.m ≡ n * n }
    requires few { n ≤ 64 }
    ensures { result ≡ greatest_to n (λ i. greatest_to n (mass_radius_at n mass.now.m i)) }
{
    let mut most = 0;
    for i in 0..n {
        most = most.max(largest_in_row(n, mass, i));
    }
    most
}

// The largest radius of the bias forces.
fn largest_in_bias(c: &[Near<32>]) -> u64
    ensures { result ≡ greatest_to (length c.now) (λ i. (slice_index_or c.now i no_near).rad) }
{
    let mut most = 0;
    for i in 0..c.len() {
        most = larger(most, &c[i]);
    }
    most
}

// A radius as a report holds it.
fn signed(radius: u64) -> i64
    requires { radius ≤ 2 ^ 40 }
    ensures { result ≡ pos radius }
{
    radius as i64
}

/// The largest radius of the mass matrix.
pub(crate) fn largest_mass_radius(model: &Model, mass: &Mass) -> i64
    requires room { length mass.now.m ≡ model.now.nv * model.now.nv }
    requires small { (i j : ℕ) → i < model.now.nv → j < model.now.nv
        → mass_radius_at model.now.nv mass.now.m i j ≤ 2 ^ 40 }
    ensures { result ≡ pos (greatest_to model.now.nv
        (λ i. greatest_to model.now.nv (mass_radius_at model.now.nv mass.now.m i))) }
{
    signed(largest_in_mass(model.nv, mass))
}

/// The largest radius of the bias forces.
pub(crate) fn largest_bias_radius(c: &[Near<32>]) -> i64
    requires { (i : ℕ) → i < length c.now → (slice_index_or c.now i no_near).rad ≤ 2 ^ 40 }
    ensures { result ≡ pos (greatest_to (length c.now)
        (λ i. (slice_index_or c.now i no_near).rad)) }
{
    signed(largest_in_bias(c))
}

// Copies the rows of a list.
pub(crate) fn copy_rows(rows: &Rows, report: &mut StepReport)
    requires room { rows.now.list.most ≡ report.old.rows.most }
    ensures format { report.new.format ≡ report.old.format }
    ensures accel { report.new.accel ≡ report.old.accel }
    ensures residual { report.new.residual ≡ report.old.residual }
    ensures mass { report.new.mass_radius ≡ report.old.mass_radius }
    ensures bias { report.new.bias_radius ≡ report.old.bias_radius }
    ensures rows { report.new.rows ≡ rows.now.list }
    ensures count { report.new.count ≡ length rows.now.list.list }
    ensures stop { report.new.stop ≡ report.old.stop }
    ensures forces { report.new.forces ≡ report.old.forces }
    ensures cert { report.new.cert ≡ report.old.cert }
{
    report.rows.clear();
    report.rows.append(rows.list.as_slice());
    report.count = rows.list.len();
}
