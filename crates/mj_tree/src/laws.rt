// Laws over the definitions of specs/, for the parts of a step to stand on.
ghost use Rattle.std.specs.Prelude.{◌≡◌, ◌⊎◌, ℕ, ◌+◌, ◌-◌, ◌<◌, ◌≤◌, ◌==◌, nat_lt, Bool, true, false, ◌&&◌, ◌||◌, cond, Option, None, List, slice_index_or};
ghost use Rattle.fx_whole.specs.Adding.{Adding, IsAdding, sum_in, when_in};
ghost use Rattle.fx_whole.specs.Counting.{count_to};
ghost use Rattle.fx_whole.specs.First.{first_to};
ghost use Rattle.mj_tree.specs.Tree.{IsTree, at_or_above, moves, above, IsLayout, IsForest};
ghost use Rattle.mj_tree.specs.TreeSums.{sum_under, is_child, sum_moving};
ghost use Rattle.mj_tree.specs.Listing.{height, start, IsListing, listed};

// ---- bodies

/// A body is above another if it is that body, or at or above its parent.
pub fn above_goes_by_parents()
    ensures { (parent : ℕ → ℕ) (a b : ℕ) → IsTree parent
        → at_or_above parent a b ≡ (a == b || at_or_above parent a (parent b)) }
{}

/// What is at or above a body that is at or above a third is at or above the third.
pub fn above_is_transitive()
    ensures { (parent : ℕ → ℕ) (a b c : ℕ) → IsTree parent → at_or_above parent a b ≡ true
        → at_or_above parent b c ≡ true → at_or_above parent a c ≡ true }
{}

/// Each body is at or above itself, the world at or above all, and a body above another stands
/// before it.
pub fn above_is_an_order()
    ensures itself { (parent : ℕ → ℕ) (b : ℕ) → IsTree parent → at_or_above parent b b ≡ true }
    ensures world { (parent : ℕ → ℕ) (b : ℕ) → IsTree parent → at_or_above parent 0 b ≡ true }
    ensures before { (parent : ℕ → ℕ) (a b : ℕ) → IsTree parent → at_or_above parent a b ≡ true
        → a ≤ b }
{}

/// Of two bodies at or above a third one is at or above the other.
pub fn two_above_a_third()
    ensures { (parent : ℕ → ℕ) (a b c : ℕ) → IsTree parent → at_or_above parent a c ≡ true
        → at_or_above parent b c ≡ true
        → (at_or_above parent a b ≡ true) ⊎ (at_or_above parent b a ≡ true) }
{}

// ---- what moves what

/// What moves a body moves all bodies at or below it.
pub fn moving_passes_down()
    ensures { (parent body : ℕ → ℕ) (j b c : ℕ) → IsTree parent → moves parent body j b ≡ true
        → at_or_above parent b c ≡ true → moves parent body j c ≡ true }
{}

/// The dofs that move a body are its parent's and its own.
pub fn movers_are_the_parents_and_its_own()
    ensures { (parent body : ℕ → ℕ) (j b : ℕ) → IsTree parent
        → moves parent body j b ≡ (body j == b || moves parent body j (parent b)) }
{}

/// A dof moves its own body, and no body but that one and those below it.
pub fn moved_are_below()
    ensures own { (parent body : ℕ → ℕ) (j : ℕ) → IsTree parent
        → moves parent body j (body j) ≡ true }
    ensures below { (parent body : ℕ → ℕ) (j b : ℕ) → IsTree parent → moves parent body j b ≡ true
        → (body j ≡ b) ⊎ (body j < b × moves parent body j (parent b) ≡ true) }
{}

/// No dof moves the world.
pub fn none_moves_world()
    ensures { (parent body first : ℕ → ℕ) (bodies dofs : ℕ)
        → IsLayout parent body first bodies dofs
        → (j : ℕ) → j < dofs → moves parent body j 0 ≡ false }
{}

// ---- dofs

/// Dofs in the order of their bodies are a forest: of two dofs above a third the earlier is above
/// the later.
pub fn layout_is_forest()
    ensures { (parent body first : ℕ → ℕ) (bodies dofs : ℕ)
        → IsLayout parent body first bodies dofs → IsForest dofs (above parent body) }
{}

/// Of two dofs of one body the earlier is above the later.
pub fn earlier_is_above()
    ensures { (parent body : ℕ → ℕ) (i k : ℕ) → IsTree parent → i < k → body i ≡ body k
        → above parent body i k ≡ true }
{}

// ---- sums, of anything that is added up

/// The sum over all bodies at or below one is its own and the sums of its children.
pub fn sum_up_is_plain<A>()
    ensures { (m : Adding A) → IsAdding m → (parent : ℕ → ℕ) → IsTree parent
        → (n : ℕ) (f : ℕ → A) (b : ℕ) → b < n → sum_under m parent n f b
        ≡ m.plus (f b) (sum_in m n (λ c. when_in m (is_child parent b c)
        (sum_under m parent n f c))) }
{}

/// Where each body's entry is added to its parent's, from the last body to the first, each comes to
/// hold the sum over all at or below it. `g s` is what the entries are after `s` bodies.
pub fn carried_up_is_sum_under<A>()
    ensures { (m : Adding A) → IsAdding m → (parent : ℕ → ℕ) → IsTree parent
        → (bodies : ℕ) (f : ℕ → A) (g : ℕ → ℕ → A)
        → ((c : ℕ) → c ≤ bodies → g 0 c ≡ f c)
        → ((s c : ℕ) → s < bodies → c ≤ bodies → g (s + 1) c
        ≡ cond (c == parent (bodies - s)) (m.plus (g s c) (g s (bodies - s))) (g s c))
        → (c : ℕ) → c ≤ bodies → g bodies c ≡ sum_under m parent (bodies + 1) f c }
{}

/// The sum over the dofs that move a body is its parent's and that over its own dofs.
pub fn sum_down_is_plain<A>()
    ensures { (m : Adding A) → IsAdding m → (parent body : ℕ → ℕ) → IsTree parent
        → (n : ℕ) (f : ℕ → A) (b : ℕ) → 0 < b → sum_moving m parent body n f b
        ≡ m.plus (sum_moving m parent body n f (parent b))
        (sum_in m n (λ j. when_in m (body j == b) (f j))) }
{}

/// A body's sum begins as its parent's whole sum, takes each of the body's dofs in turn, and is
/// whole after the last of them.
pub fn carried_down_is_sum_moving<A>()
    ensures begins { (m : Adding A) → IsAdding m → (parent body first : ℕ → ℕ) (bodies dofs : ℕ)
        → IsLayout parent body first bodies dofs → (f : ℕ → A) (b : ℕ) → 0 < b → b ≤ bodies
        → sum_moving m parent body dofs f (parent b) ≡ sum_moving m parent body (first b) f b }
    ensures goes_on { (m : Adding A) → IsAdding m → (parent body : ℕ → ℕ) → IsTree parent
        → (j : ℕ) (f : ℕ → A)
        → sum_moving m parent body (j + 1) f (body j)
        ≡ m.plus (sum_moving m parent body j f (body j)) (f j) }
    ensures ends { (m : Adding A) → IsAdding m → (parent body first : ℕ → ℕ) (bodies dofs : ℕ)
        → IsLayout parent body first bodies dofs → (f : ℕ → A) (b : ℕ) → b < bodies
        → sum_moving m parent body (first (b + 1)) f b ≡ sum_moving m parent body dofs f b }
    ensures world { (m : Adding A) → IsAdding m → (parent body first : ℕ → ℕ) (bodies dofs : ℕ)
        → IsLayout parent body first bodies dofs → (f : ℕ → A)
        → sum_moving m parent body dofs f 0 ≡ m.empty }
{}

// ---- lists of what is above each dof

/// The list of a dof names dofs above it in ascending order, and each of them.
pub fn listing_is_whole()
    ensures above { (above : ℕ → ℕ → Bool) (n : ℕ) (at names : List ℕ)
        → IsListing above n at names → (k c : ℕ) → k < n → c < height above k
        → above (listed above names k c) k ≡ true }
    ensures ascends { (above : ℕ → ℕ → Bool) (n : ℕ) (at names : List ℕ)
        → IsListing above n at names → (k c d : ℕ) → k < n → c < d → d < height above k
        → listed above names k c < listed above names k d }
    ensures each { (above : ℕ → ℕ → Bool) (n : ℕ) (at names : List ℕ)
        → IsListing above n at names → (k i : ℕ) → k < n → i < k → above i k ≡ true
        → listed above names k (count_to i (λ j. above j k)) ≡ i }
{}

/// In each list that names a dof it stands after as many others as are above it.
pub fn place_is_height()
    ensures place { (above : ℕ → ℕ → Bool) (n : ℕ) (at names : List ℕ)
        → IsListing above n at names → IsForest n above → (k i : ℕ) → k < n → above i k ≡ true
        → listed above names k (height above i) ≡ i }
    ensures test { (above : ℕ → ℕ → Bool) (n : ℕ) (at names : List ℕ)
        → IsListing above n at names → IsForest n above → (k i : ℕ) → k < n
        → above i k ≡ (nat_lt (height above i) (height above k)
        && slice_index_or names (start above k + height above i) 0 == i + 1) }
{}

/// A sum over the earlier dofs to which those that aren't above add nothing is one over the list.
pub fn sum_is_over_listed<A>()
    ensures { (m : Adding A) → IsAdding m → (above : ℕ → ℕ → Bool) (n : ℕ) (at names : List ℕ)
        → IsListing above n at names → (k : ℕ) → k < n → (f : ℕ → A)
        → ((i : ℕ) → i < k → above i k ≡ false → f i ≡ m.empty)
        → sum_in m k f ≡ sum_in m (height above k) (λ c. f (listed above names k c)) }
{}

/// A first fault among the earlier dofs, of which those that aren't above have none, is the first
/// of the list.
pub fn first_is_over_listed<F>()
    ensures { (above : ℕ → ℕ → Bool) (n : ℕ) (at names : List ℕ)
        → IsListing above n at names → (k : ℕ) → k < n → (f : ℕ → Option F)
        → ((i : ℕ) → i < k → above i k ≡ false → f i ≡ None)
        → first_to k f ≡ first_to (height above k) (λ c. f (listed above names k c)) }
{}
