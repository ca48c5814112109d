// The theory of trees and their plans: what tables, filtering, the tree and its plan list are stands in `specs/`. Each function here only
// carries a theorem as its contract, so that the crate is not proved without it.

#![tactic(auto)]

ghost use Rattle.tree.specs.Theorems.{NodeIsOne, FilteredOnce, RulesChoose, TreeIsOne, TreeEnds, PlansAreAll, PlansInFront, AnswerIsOne, BudgetsGiveThePlans};
ghost use Rattle.tree.specs.Examples.{ExamplesAreLawful, ExamplesCompute};

// A table has one node: its filtered table, or failed.
pub fn node_is_one()
    ensures { NodeIsOne }
{}

// Filtering once after a decision gives the same node, whether or not the table was filtered before.
pub fn filtered_once()
    ensures { FilteredOnce }
{}

// The two rules keep the law of a rule, and answer what they are to answer.
pub fn rules_choose()
    ensures { RulesChoose }
{}

// A table has one tree.
pub fn tree_is_one()
    ensures { TreeIsOne }
{}

// Each way down the tree ends.
pub fn tree_ends()
    ensures { TreeEnds }
{}

// The plan list holds every plan of the table, only plans, none twice, and in tree order.
pub fn plans_are_all()
    ensures { PlansAreAll }
{}

// The plans among the first nodes are the front of the plan list.
pub fn plans_in_front()
    ensures { PlansInFront }
{}

// A call with a budget has one answer.
pub fn answer_is_one()
    ensures { AnswerIsOne }
{}

// A run of budgets gives the front of the plan list, and the whole of it where the budgets cover the tree.
pub fn budgets_give_the_plans()
    ensures { BudgetsGiveThePlans }
{}

// The problems of the examples keep the laws that the theorems ask for.
pub fn examples_are_lawful()
    ensures { ExamplesAreLawful }
{}

// The definitions compute the nodes, plans and answers of the examples.
pub fn examples_compute()
    ensures { ExamplesCompute }
{}
