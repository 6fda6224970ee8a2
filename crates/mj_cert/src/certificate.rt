// The certificate of a dual's forces.
ghost use Rattle.std.specs.Prelude.{◌≡◌, ℕ, ◌<◌, ◌≤◌, pos, length, IfOk};
ghost use Rattle.fx_whole.specs.First.{refusal_of};
ghost use Rattle.mj_optimum.specs.Box as ends;
ghost use Rattle.mj_optimum.specs.Cost as cost;
ghost use Rattle.mj_optimum.specs.Enclosure.{BoundHolds, BoxHolds, IsOnly};
ghost use Rattle.mj_optimum.specs.Shortfall as shortfall;
ghost use Rattle.mj_types.specs.Parts.{number_at};
ghost use Rattle.mj_types.specs.Problems as duals;
ghost use Rattle.mj_types.specs.Solved.{IsSolved};
ghost use Rattle.mj_cert.specs.Certificate as spec;

use crate::cost::cost_of;
use crate::ends::fill_box;
use crate::exact::minus;
use crate::fall::fill_shortfalls;
use mj_types::{Cert, Dual, Forces, OutOfRange};

/// Certifies forces that a solver left. `out` gets twice their cost and a number that twice the cost
/// of no feasible force is below, both at 2^-88, and for each row the ends, at 2^-20, of a box that
/// holds every feasible rational force that costs no more than these. Both rest on what each row
/// could gain alone: the certificate is this project's own.
///
/// It refuses where, row by row, the sum of what the rows could gain passes 2^124; then where, row by
/// row, the box goes further than 2^50 raw from a force that has no bound there. `index` is the row's
/// `place`. The lists of `out` keep their lengths.
pub fn certify(dual: &Dual, forces: &Forces, out: &mut Cert) -> Result<(), OutOfRange>
    requires f_room { dual.now.m ≤ length forces.now.f }
    requires u_room { dual.now.nv ≤ length forces.now.u }
    requires lo_room { dual.now.m ≤ length out.old.lo }
    requires hi_room { dual.now.m ≤ length out.old.hi }
    requires slope_room { dual.now.m ≤ length out.old.slope }
    requires depth_room { dual.now.m ≤ length out.old.depth }
    requires solved { IsSolved dual.now forces.now }
    ensures lo_len { length out.new.lo ≡ length out.old.lo }
    ensures hi_len { length out.new.hi ≡ length out.old.hi }
    ensures slope_len { length out.new.slope ≡ length out.old.slope }
    ensures depth_len { length out.new.depth ≡ length out.old.depth }
    ensures first { refusal_of result ≡ spec.certificate_out dual.now forces.now }
    ensures numbers { IfOk result (λ _. spec.IsCertificate dual.now forces.now out.new) }
    ensures bound_holds { IfOk result (λ _.
        BoundHolds (duals.problem dual.now) out.new.bound2) }
    ensures box_holds { IfOk result (λ _. BoxHolds (duals.problem dual.now)
        (duals.forces forces.now) (number_at out.new.lo) (number_at out.new.hi)) }
{
    fill(dual, forces, out)?;
    Ok(())
}

/// The numbers of the certificate.
fn fill(dual: &Dual, forces: &Forces, out: &mut Cert) -> Result<(), OutOfRange>
    requires f_room { dual.now.m ≤ length forces.now.f }
    requires u_room { dual.now.nv ≤ length forces.now.u }
    requires lo_room { dual.now.m ≤ length out.old.lo }
    requires hi_room { dual.now.m ≤ length out.old.hi }
    requires slope_room { dual.now.m ≤ length out.old.slope }
    requires depth_room { dual.now.m ≤ length out.old.depth }
    requires solved { IsSolved dual.now forces.now }
    ensures lo_len { length out.new.lo ≡ length out.old.lo }
    ensures hi_len { length out.new.hi ≡ length out.old.hi }
    ensures slope_len { length out.new.slope ≡ length out.old.slope }
    ensures depth_len { length out.new.depth ≡ length out.old.depth }
    ensures first { refusal_of result ≡ spec.certificate_out dual.now forces.now }
    ensures cost { IfOk result (λ _. out.new.cost2
        ≡ cost.cost (duals.problem dual.now) (duals.forces forces.now) (pos 1)) }
    ensures bound { IfOk result (λ _. out.new.bound2
        ≡ shortfall.bound2 (duals.problem dual.now) (duals.forces forces.now)) }
    ensures low { IfOk result (λ _. (i : ℕ) → i < dual.now.m
        → number_at out.new.lo i ≡ ends.lo (duals.problem dual.now) (duals.forces forces.now) i) }
    ensures high { IfOk result (λ _. (i : ℕ) → i < dual.now.m
        → number_at out.new.hi i ≡ ends.hi (duals.problem dual.now) (duals.forces forces.now) i) }
{
    let total = fill_shortfalls(dual, forces, &mut out.slope, &mut out.depth)?;
    fill_box(
        dual,
        forces,
        &out.slope,
        &out.depth,
        &total,
        &mut out.lo,
        &mut out.hi,
    )?;
    let cost = cost_of(dual, forces);
    out.cost2 = cost.raw;
    out.bound2 = minus(&cost, &total).raw;
    Ok(())
}

/// Where the cost of certified forces is their bound, they are the optimum: no feasible force costs
/// less, and no other one costs as little.
pub fn optimum_when_closed(dual: &Dual, forces: &Forces, cert: &Cert)
    requires solved { IsSolved dual.now forces.now }
    requires certified { spec.IsCertificate dual.now forces.now cert.now }
    requires closed { cert.now.bound2 ≡ cert.now.cost2 }
    ensures least { BoundHolds (duals.problem dual.now) cert.now.cost2 }
    ensures only { IsOnly (duals.problem dual.now) (duals.forces forces.now) }
{}
