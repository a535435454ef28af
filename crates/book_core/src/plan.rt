use job_states::{Answer, Mode, Row, Transaction};
use std::marker::Model;

/// What a command comes to: transitions of one moment, the rows that it holds until it ends, and its answer. The answer names
/// a job for each new one and hands one out for each claim; the rows strictly rise.
#[derive(Drop)]
pub struct Plan {
    pub(crate) tx: Transaction,
    pub(crate) rows: Vec<(Row, Mode)>,
    pub(crate) answer: Answer,
}

impl Model for Plan {
    ghost use Rattle.plan_model.specs.Plans.{Plan};
    ghost use Rattle.book_core.specs.Coded.{coded_plan};
    ghost use Rattle.book_core.specs.GoodPlan.{IsGoodPlan, plan};

    ghost Value = { Plan };

    ghost coded = { coded_plan };

    ghost view = { λ p. plan p.tx p.rows.items p.answer };

    ghost invariant = { λ p. IsGoodPlan (plan p.tx p.rows.items p.answer) };
}

impl Plan {
    ghost use Rattle.std.specs.Prelude.{◌≡◌};
    ghost use Rattle.book_core.specs.GoodPlan.{IsGoodPlan, plan};

    /// A plan of these parts.
    pub fn new(tx: Transaction, rows: Vec<(Row, Mode)>, answer: Answer) -> Self
        requires { IsGoodPlan (plan tx rows.items answer) }
        ensures { result ≡ plan tx rows.items answer }
    {
        Plan { tx, rows, answer }
    }

    /// Its transitions.
    pub fn tx(&self) -> &Transaction
        ensures { result.now ≡ self.now.tx }
    {
        &self.tx
    }

    /// The rows that it holds, in their order, each once.
    pub fn rows(&self) -> &[(Row, Mode)]
        ensures same { result.now ≡ self.now.rows }
        ensures good { IsGoodPlan self.now }
    {
        &self.rows
    }

    /// What is answered once it is applied.
    pub fn answer(&self) -> &Answer
        ensures { result.now ≡ self.now.answer }
    {
        &self.answer
    }
}
