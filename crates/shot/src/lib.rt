// One shot decoded over tables at rest: docs/RULES.md, "Growth" and "Peeling".
#![tactic(auto)]

ghost use Rattle.std.specs.Prelude.{ℕ, ◌<◌, ◌≡◌, List, [], ◌∷◌, length};
ghost use Rattle.cells.specs.Lent.{SameSlices};
ghost use Rattle.cells.specs.Tables.{at_active, at_front, at_order_edge, at_order_parent, lits, parents, SameStacks};
ghost use Rattle.steps.specs.Graph.{boundary};
ghost use Rattle.steps.specs.Growth.{start};
ghost use Rattle.steps.specs.Shot.{decode, row_left};
ghost use Rattle.steps.specs.Call.{list_left};
ghost use Rattle.lent_graph.specs.Graph.{whole_graph};
ghost use Rattle.adjacency.specs.Lent.{weighted_of};
ghost use Rattle.forest.specs.Forest.{Down};
ghost use Rattle.growth_state.specs.Lent.{RepIn};
ghost use Rattle.peeling.specs.Lent.{TabledIn, GrownIn, LitIn};
ghost use Rattle.finish.specs.Lent.{SettlesIn, FinishedIn};
ghost use Rattle.rest.specs.Lent.{AtRest, CleaningIn, Spent};
ghost use Rattle.shot.specs.Shots.{shot_of, Given};
ghost use Rattle.shot.specs.Lent.{Decodable, LeftIn, PlacesIn, GrewToIn, decode_on};
ghost use Rattle.shot.specs.Blank.{is_blank};

use adjacency::Incidence;
use cells::{StackColumn, Tables};
use lent_graph::Graph;

// Peels all clusters, puts the observables of the list into out_row, and puts to rest what the shot has changed. Returns the length of the list.
pub fn end_shot(
    g: &Graph,
    adj: &Incidence,
    t: &mut Tables,
    defect_count: usize,
    list: &mut [u32],
    obs_words: usize,
    out_row: &mut [u64],
    seen_count: usize,
) -> usize
    requires tabled { TabledIn g.now adj.now t.old.sat.now t.old.flags.now t.old.stacks.now }
    requires down { Down g.now.detectors (parents t.old.tree.now) }
    requires grown { GrownIn g.now t.old.sat.now t.old.tree.now }
    requires lit { LitIn g.now t.old.stacks.now defect_count t.old.flags.now list.old }
    requires settles { SettlesIn g.now t.old.sat.now t.old.tree.now t.old.flags.now obs_words out_row.old t.old.stacks.now seen_count }
    requires cleaning { CleaningIn g.now adj.now t.old.stacks.now seen_count }
    requires used { Spent g.now t.old seen_count }
    ensures finished { FinishedIn g.now t.old.sat.now t.old.tree.now t.old.flags.now obs_words out_row.old list.old result t.new.flags.now out_row.new list.new }
    ensures clean { AtRest g.now t.new }
    ensures same_stacks { SameStacks (at_active ∷ at_front ∷ at_order_edge ∷ at_order_parent ∷ []) t.old.stacks.now t.new.stacks.now }
    ensures same_links { t.new.links.now ≡ t.old.links.now }
    ensures same { SameSlices t.old t.new }
{
    let tree = &mut *t.tree;
    let flags = &mut *t.flags;
    let stacks = &mut *t.stacks;
    let growth = &mut *t.growth;
    let sat = &mut *t.sat;
    let r = finish::finish(
        g,
        adj,
        tree,
        flags,
        stacks,
        sat,
        defect_count,
        list,
        obs_words,
        out_row,
        seen_count,
    );
    rest::clean(g, adj, tree, flags, stacks, growth, sat, seen_count);
    r
}

// The rounds finished, and the length of the correction list or the detector that Stuck names.
// kept: Stuck has its rounds too, which a Refusal has not
#[derive(Clone, Copy)]
pub enum Shot {
    Decoded { rounds: u32, length: usize },
    Stuck { rounds: u32, detector: u32 },
}

// Stuck, with the tables put to rest: n detectors are seen. A list and a row are left as they were.
pub fn stuck_shot(
    g: &Graph,
    adj: &Incidence,
    t: &mut Tables,
    n: usize,
    detector: u32,
    rounds: u32,
) -> Shot
    requires tables { Decodable g.now adj.now }
    requires grew_to { GrewToIn (weighted_of g.now) t.old detector rounds n }
    requires fact { detector ≡ boundary → ⊥ }
    ensures answers { result ≡ shot_of (decode (whole_graph g.now) (lits t.old.flags.now)) }
    ensures lists { (was : List ℕ) → was ≡ list_left was (decode (whole_graph g.now) (lits t.old.flags.now)) }
    ensures rows { (was : List ℕ) → was ≡ row_left (whole_graph g.now) was (decode (whole_graph g.now) (lits t.old.flags.now)) }
    ensures rests { AtRest g.now t.new }
    ensures same_rows { (t.new.stacks.now ≡ t.old.stacks.now) × (t.new.links.now ≡ t.old.links.now) }
    ensures same { SameSlices t.old t.new }
{
    let tree = &mut *t.tree;
    let flags = &mut *t.flags;
    let stacks = &mut *t.stacks;
    let growth = &mut *t.growth;
    let sat = &mut *t.sat;
    rest::clean(g, adj, tree, flags, stacks, growth, sat, n);
    Shot::Stuck { rounds, detector }
}

// Rounds until no cluster is active or one is stuck, from the l lit detectors, and the answer. The tables are put to rest. It is one loop between a round and the two ends.
pub fn grow_and_answer(
    g: &Graph,
    adj: &Incidence,
    row: &mut [u64],
    list: &mut [u32],
    l: usize,
    t: &mut Tables,
) -> Shot
    requires tables { Decodable g.now adj.now }
    requires left { LeftIn g.now t.old row.old list.old l }
    requires edge_u_in_bounds { length g.now.edge_u.now < length t.old.links.now }
    requires rep { RepIn (weighted_of g.now) (start (weighted_of g.now) (lits t.old.flags.now)) t.old l l }
    ensures answers { result ≡ shot_of (decode (whole_graph g.now) (lits t.old.flags.now)) }
    ensures lists { list.new ≡ list_left list.old (decode (whole_graph g.now) (lits t.old.flags.now)) }
    ensures rows { row.new ≡ row_left (whole_graph g.now) row.old (decode (whole_graph g.now) (lits t.old.flags.now)) }
    ensures rests { AtRest g.now t.new }
    ensures same { SameSlices t.old t.new }
{
    // taken out of their places once, or each round would read them there again
    let whole = *g;
    let near = *adj;
    let mut n = l;
    let mut a = l;
    let mut rounds = 0;
    // kept: it ends when no cluster is active, after at most as many rounds as edges; a `for` to that bound would have to be left by the same test
    while 0 < a {
        let s = growth_round::round(&whole, &near, t, n, a);
        n = s.seen;
        a = s.active;
        if let Some(detector) = s.stuck {
            return stuck_shot(g, adj, t, n, detector, rounds);
        }
        rounds += 1;
    }
    let w = bits::words(g.observables);
    let length = end_shot(g, adj, t, l, list, w, row, n);
    Shot::Decoded { rounds, length }
}

// Whether no word of a row has a bit set.
pub fn is_blank(row: &[u64]) -> bool
    ensures { result ≡ is_blank row.now }
{
    row.iter().all(|w| *w == 0)
}

// Decodes the shot over tables at rest and leaves them at rest. Peeling has its marks in the column `free`, its stack in `front` and its vertices in `active`.
pub fn decode_clean(
    g: &Graph,
    adj: &Incidence,
    shot: &[u64],
    row: &mut [u64],
    list: &mut [u32],
    t: &mut Tables,
) -> Shot
    requires tables { Decodable g.now adj.now }
    requires given { Given g.now.detectors g.now.observables shot.now row.old list.old }
    requires places { PlacesIn g.now t.old }
    requires clean { AtRest g.now t.old }
    ensures answers { result ≡ shot_of (decode_on g.now shot.now) }
    ensures lists { list.new ≡ list_left list.old (decode_on g.now shot.now) }
    ensures rows { row.new ≡ row_left (whole_graph g.now) row.old (decode_on g.now shot.now) }
    ensures rests { AtRest g.now t.new }
    ensures same { SameSlices t.old t.new }
{
    let flags = &mut *t.flags;
    let stacks = &mut *t.stacks;
    let l = bits::list_set_bits(shot, g.detectors, stacks, StackColumn::Defect);
    if l == 0 {
        return Shot::Decoded {
            rounds: 0,
            length: 0,
        };
    }
    lit::light(g.detectors, flags, stacks, l);
    grow_and_answer(g, adj, row, list, l, t)
}
