//! Lines that print a name, or a call of one, of any module.

ghost use Rattle.std.specs.Prelude.{◌≡◌, ◌++◌, ◌||◌, true, map};
ghost use Rattle.pj_meaning.specs.Top.{top};
ghost use Rattle.pj_meaning.specs.Tree.{Call, Exprs, Global as Named, Text};
ghost use Rattle.pj_tree.specs.Reads.{exprs_of};
ghost use Rattle.pj_plain.specs.Held.{held_expr};
ghost use Rattle.pj_session.specs.Ending.{Answers};
ghost use Rattle.pj_session.specs.Good.{Good};
ghost use Rattle.pj_session.specs.Items.{called_in, integers as integers_of, is_asked, println_item};
ghost use Rattle.pj_session.specs.OwnItems.{is_own_call};
ghost use Rattle.pj_session.specs.Seen.{events_of, state_seen};
ghost use Rattle.pj_session.specs.SessionItems.{is_far};
ghost use Rattle.pj_session.specs.States.{run};
ghost use Rattle.pj_session.specs.Tops.{Tops};

use crate::arguments::integers;
use crate::call::home_of;
use crate::end::End;
use crate::found::{call_found, read_found, whole};
use crate::state::Session;
use pj_plain::held::text;
use pj_tree::Expr;
use std::alloc::Global;

impl Session {
    /// What a call of a name gives for integers, by the module that is written before it.
    fn called(
        &self,
        alloc: Global,
        qualifier: &str,
        name: &str,
        arguments: &[i64],
        left: &mut u64,
    ) -> Result<i64, End>
        ensures { Answers (called_in self.now.here (events_of self.now) qualifier.now name.now arguments.now left.old) result left.new }
    {
        let home = home_of(self.here.as_str(), qualifier);
        let there = self.has_package(home);
        let thing = self.thing(home, name);
        call_found(alloc, there, thing, home, name, arguments, left)
    }

    /// `println` of a call of a name for integers.
    fn println_called(
        &mut self,
        alloc: Global,
        qualifier: &str,
        name: &str,
        arguments: &[i64],
        left: &mut u64,
    ) -> Result<(), End>
        ensures tops { (es : Exprs) → arguments.now ≡ integers_of es → is_asked (Call qualifier.now name.now es) ≡ true → Good self.old.here (events_of self.old) → Tops (top (println_item (Call qualifier.now name.now es)) (run (state_seen self.old) left.old)) result (state_seen self.old) (state_seen self.new) left.new }
        ensures printed { (text : Text) × (self.new.printed ≡ self.old.printed ++ text) }
        ensures events { events_of self.new ≡ events_of self.old }
        ensures here { self.new.here ≡ self.old.here }
        ensures spent { self.new.spent ≡ self.old.spent }
    {
        let called = self.called(alloc, qualifier, name, arguments, left);
        self.println_answer(alloc, whole(called), left)
    }

    /// `println` of a call of a name with these expressions, which are integers.
    fn println_call(
        &mut self,
        alloc: Global,
        qualifier: &str,
        name: &str,
        arguments: &[Expr],
        left: &mut u64,
    ) -> Result<(), End>
        ensures tops { is_asked (Call qualifier.now name.now (exprs_of (map held_expr arguments.now))) ≡ true → Good self.old.here (events_of self.old) → Tops (top (println_item (Call qualifier.now name.now (exprs_of (map held_expr arguments.now)))) (run (state_seen self.old) left.old)) result (state_seen self.old) (state_seen self.new) left.new }
        ensures printed { (text : Text) × (self.new.printed ≡ self.old.printed ++ text) }
        ensures events { events_of self.new ≡ events_of self.old }
        ensures here { self.new.here ≡ self.old.here }
        ensures spent { self.new.spent ≡ self.old.spent }
    {
        match integers(alloc, arguments) {
            Ok(values) => self.println_called(alloc, qualifier, name, values.as_slice(), left),
            Err(_) => Err(End::NoMemory),
        }
    }

    /// `println` of a name that is written with its module.
    fn println_name(
        &mut self,
        alloc: Global,
        home: &str,
        name: &str,
        left: &mut u64,
    ) -> Result<(), End>
        ensures tops { is_far (Named home.now name.now) ≡ true → Good self.old.here (events_of self.old) → Tops (top (println_item (Named home.now name.now)) (run (state_seen self.old) left.old)) result (state_seen self.old) (state_seen self.new) left.new }
        ensures printed { (text : Text) × (self.new.printed ≡ self.old.printed ++ text) }
        ensures events { events_of self.new ≡ events_of self.old }
        ensures here { self.new.here ≡ self.old.here }
        ensures spent { self.new.spent ≡ self.old.spent }
    {
        let there = self.has_package(home);
        let answer = read_found(alloc, there, self.thing(home, name), home, name);
        self.println_answer(alloc, answer, left)
    }

    /// `println` of an expression that is a call, without a module, with integers, or a name or such a call of a module
    /// that is written.
    #[tactic(auto, using(pj_tree::proofs::ExprReads::expr_reads))]
    pub fn println_expr(&mut self, alloc: Global, e: &Expr, left: &mut u64) -> Result<(), End>
        ensures tops { (is_own_call (held_expr e.now) || is_far (held_expr e.now)) ≡ true → Good self.old.here (events_of self.old) → Tops (top (println_item (held_expr e.now)) (run (state_seen self.old) left.old)) result (state_seen self.old) (state_seen self.new) left.new }
        ensures printed { (text : Text) × (self.new.printed ≡ self.old.printed ++ text) }
        ensures events { events_of self.new ≡ events_of self.old }
        ensures here { self.new.here ≡ self.old.here }
        ensures spent { self.new.spent ≡ self.old.spent }
    {
        match e {
            Expr::Global(home, name) => self.println_name(alloc, text(home), text(name), left),
            Expr::Call(home, name, arguments) => {
                self.println_call(alloc, text(home), text(name), arguments.as_slice(), left)
            }
            Expr::Nothing | Expr::False | Expr::True | Expr::Int(_) => Ok(()),
            Expr::Str(_) | Expr::Local(_) | Expr::Field(_, _) => Ok(()),
            Expr::CallLocal(_, _) | Expr::Latest(_, _) => Ok(()),
            Expr::And(_, _) | Expr::Or(_, _) | Expr::Cond(_, _, _) | Expr::Same(_, _) => Ok(()),
        }
    }
}
