// From a plan to its answers.
#![tactic(auto)]

ghost use Rattle.std.specs.Prelude.{◌≡◌, ◌<◌, take};
ghost use Rattle.plan.specs.Legal.{flow as flow_at};
ghost use Rattle.pairs.specs.Pairs.{pair_table};
ghost use Rattle.pairs.specs.Scene.{Scene};
ghost use Rattle.model.specs.Answers.{answer_array};
ghost use Rattle.model.specs.Verdicts.{verdict as verdict_for};
ghost use Rattle.engine_terms.specs.Loads.{way_of};
ghost use Rattle.engine.specs.Working.{Keeps, HasPairs, TurnOf, Turned};

use engine_costs::figures::Figures;
use engine_costs::latency::{latency, limit};
use engine_rows::hits::hit_row;
use engine_rows::rows::row_of;
use engine_rows::search::{next_flow, waits_on};
use engine_solve::solve;
use engine_solve::turn::Turn;
use engine_terms::kept::{Kept, KeptTable};
use engine_terms::terms::Way;
use model::{Answer, Answers, Verdict};
use pairs::{PairTable, pair_table};
use plan::Plan;

// Behind the flows, in an array of structs, as document 01 names it: no flow has the id 65535.
const BLANK_ANSWER: Answer = Answer {
    id: 65535,
    verdict: Verdict::Waits(65535),
};

// The flow at i comes to its turn.
fn turn_of(plan: &Plan, table: &PairTable, i: usize) -> Turn
    requires scene { Scene plan.now.platform plan.now.flows plan.now.count }
    requires inside { i < plan.now.count }
    requires pairs { HasPairs plan.now.platform plan.now.flows plan.now.count table.now }
    ensures { TurnOf plan.now.platform plan.now.flows plan.now.count i result }
{
    let flow = plan.flows[i];
    let cost = latency(plan.platform, flow, table[i][i].count);
    Turn {
        place: i,
        cost,
        limit: limit(flow),
        row: row_of(&table[i], &plan.flows[..plan.count], flow.priority),
    }
}

// Its verdict asks for those of its direct flows, which are higher.
fn verdict_of(way: Way, plan: &Plan, turn: &Turn, kept: &KeptTable, table: &PairTable) -> Verdict
    requires way { way ≡ way_of plan.now.platform }
    requires turn { Turned plan.now.platform plan.now.flows plan.now.count turn.now.place turn.now kept.now table.now }
    ensures { result ≡ verdict_for plan.now.platform (take plan.now.count plan.now.flows) (flow_at plan.now.flows turn.now.place) }
{
    if let Some(j) = waits_on(&turn.row, &plan.flows, kept) {
        return Verdict::Waits(plan.flows[j].id);
    }
    Verdict::from(solve(way, turn, kept, table))
}

// What the flows below ask for.
fn kept_of(
    way: Way,
    plan: &Plan,
    turn: &Turn,
    verdict: Verdict,
    kept: &KeptTable,
    table: &PairTable,
) -> Kept
    requires way { way ≡ way_of plan.now.platform }
    requires turn { Turned plan.now.platform plan.now.flows plan.now.count turn.now.place turn.now kept.now table.now }
    requires verdict { verdict ≡ verdict_for plan.now.platform (take plan.now.count plan.now.flows) (flow_at plan.now.flows turn.now.place) }
    ensures { Keeps plan.now.platform plan.now.flows plan.now.count turn.now.place result }
{
    let seen = way.looked_at(turn.row.many);
    let bound = verdict.bound();
    Kept {
        figures: Figures::of(plan.flows[turn.place], turn.cost, bound, seen),
        direct: turn.row.direct,
        hits: hit_row(&turn.row.direct()[..seen], kept, bound.unwrap_or(0)),
    }
}

// With the plan's pair table at hand, by value as document 01 has it. The flows are taken in order of priority.
pub fn analyse_table(plan: Plan, table: PairTable) -> Answers
    requires { Scene plan.platform plan.flows plan.count × (table ≡ pair_table plan.platform (take plan.count plan.flows)) }
    ensures { result ≡ answer_array plan.platform (take plan.count plan.flows) }
{
    let way = Way::of(plan.platform);
    let mut kept = [Kept {
        figures: Figures::default(),
        direct: [0; 64],
        hits: [0; 64],
    }; 64];
    let mut answers = [BLANK_ANSWER; 64];
    let mut last = 0;
    while let Some(i) = next_flow(&plan.flows[..plan.count], last) {
        let turn = turn_of(&plan, &table, i);
        let verdict = verdict_of(way, &plan, &turn, &kept, &table);
        kept[i] = kept_of(way, &plan, &turn, verdict, &kept, &table);
        let flow = plan.flows[i];
        answers[i] = Answer {
            id: flow.id,
            verdict,
        };
        last = flow.priority;
    }
    answers
}

pub fn analyse_plan(plan: Plan) -> Answers
    requires { Scene plan.platform plan.flows plan.count }
    ensures { result ≡ answer_array plan.platform (take plan.count plan.flows) }
{
    let table = pair_table(&plan);
    analyse_table(plan, table)
}
