// The factored mass matrix, whose entries are listed: for each dof those of the dofs above it.
ghost use Rattle.std.specs.Prelude.{◌≡◌, ◌+◌, ◌<◌, ◌≤◌, ◌++◌, ◌∷◌, [], cond, IfOk, OnOk, length};
ghost use Rattle.mj_tree.specs.Listing.{IsListing, AreEnds, IsListedTo};
ghost use Rattle.mj_types.specs.Forests.{above_in};

use crate::NoMemory;
use crate::carriers::Factor;
use crate::model::Model;
use crate::room::zeros;
use fx_list::Array;
use std::alloc::Global;

// Where the list of each dof begins and ends, and the dofs that it names.
#[derive(Drop)]
struct Lists {
    at: Vec<usize>,
    names: Vec<usize>,
}

// Adds `x` at the end.
fn push(list: &mut Vec<usize>, x: usize) -> Result<(), NoMemory>
    ensures { OnOk result (list.new.items ≡ list.old.items ++ x ∷ []) }
{
    match list.push(x) {
        Ok(()) => Ok(()),
        Err(_) => Err(NoMemory),
    }
}

// Names dof `i`, by its number, where it is above dof `k`.
fn add_name(model: &Model, k: usize, i: usize, names: &mut Vec<usize>) -> Result<(), NoMemory>
    requires before { i < k }
    requires dof { k < model.now.nv }
    requires listed { IsListedTo (above_in model.now) k i names.old.items }
    ensures { OnOk result (IsListedTo (above_in model.now) k (i + 1) names.new.items) }
{
    if model.is_above(i, k) {
        push(names, i + 1)?;
    }
    Ok(())
}

// Names the dofs above dof `k`.
fn add_names(model: &Model, k: usize, names: &mut Vec<usize>) -> Result<(), NoMemory>
    requires dof { k < model.now.nv }
    requires listed { IsListedTo (above_in model.now) k 0 names.old.items }
    ensures { OnOk result (IsListedTo (above_in model.now) (k + 1) 0 names.new.items) }
{
    for i in 0..k {
        add_name(model, k, i, names)?;
    }
    Ok(())
}

// Adds the list of dof `k`.
fn add_list(model: &Model, k: usize, lists: &mut Lists) -> Result<(), NoMemory>
    requires dof { k < model.now.nv }
    requires ends { AreEnds (above_in model.now) k lists.old.at.items }
    requires listed { IsListedTo (above_in model.now) k 0 lists.old.names.items }
    ensures ends { OnOk result (AreEnds (above_in model.now) (k + 1) lists.new.at.items) }
    ensures listed { OnOk result (IsListedTo (above_in model.now) (k + 1) 0 lists.new.names.items) }
{
    add_names(model, k, &mut lists.names)?;
    push(&mut lists.at, lists.names.len())?;
    Ok(())
}

// The lists of all dofs.
fn lists_of(alloc: Global, model: &Model) -> Result<Lists, NoMemory>
    ensures { IfOk result (λ l.
        IsListing (above_in model.now) model.now.nv l.at.items l.names.items) }
{
    let mut lists = Lists {
        at: Vec::new(alloc),
        names: Vec::new(alloc),
    };
    push(&mut lists.at, 0)?;
    for k in 0..model.nv {
        add_list(model, k, &mut lists)?;
    }
    Ok(lists)
}

impl Factor {
    ghost use Rattle.mj_types.specs.FactorRooms as spec;

    /// A factor with room for the model's entries, which its lists name.
    pub fn new(alloc: Global, model: &Model) -> Result<Factor, NoMemory>
        ensures room { IfOk result (λ f. spec.FactorRoom model.now f) }
    {
        let lists = lists_of(alloc, model)?;
        let entries = lists.names.len();
        Ok(Factor {
            at: Array::from_vec(lists.at),
            above: Array::from_vec(lists.names),
            w: zeros(alloc, entries)?,
            l: zeros(alloc, entries)?,
            d: zeros(alloc, model.nv)?,
        })
    }
}
