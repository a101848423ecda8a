// What each group of instructions does to a shape.
ghost use Rattle.std.specs.Prelude.{◌≡◌, ℕ, ◌+◌, ◌≤◌, ◌<◌, length, List, [], drop, IfSome};
ghost use Rattle.std.proofs.Math.Option.{Option};
ghost use Rattle.model.specs.Tables.{Ty, class, byte_of, Field, Method, Module};
ghost use Rattle.model.specs.Code.{dup, pop, ret, unary, Act};
ghost use Rattle.model.specs.Operators.{fits};
ghost use Rattle.model.specs.State.{fit_all, firsts};
ghost use Rattle.model.specs.Check.{Shape, pops_one, pushes, plain_effect, test_effect, cast_effect, effect};
ghost use Rattle.ancestor.specs.Parents.{Parents};
ghost use Rattle.shapes.specs.Pool.{Fine, Shows, Small, Effect};
ghost use Rattle.shapes.specs.Kinds.{unary_by};
ghost use Rattle.shapes.specs.Effects.{binary_effect, compare_effect, when_effect, called_effect, Due, Gives, Types, Pops};

use super::fault::FaultKind;
use super::fit::fits;
use super::kind::{Kind, Pair, Unary};
use super::numbers::{INT32, NULL};
use super::shape::{EMPTY, Pool};

impl Pool {
    // A type is loaded.
    pub fn push(&mut self, s: usize, t: u8, max: u8) -> Result<usize, FaultKind>
        requires made_below { self.old.made < 2048 }
        requires s_below { s < 2048 }
        ensures small { Small self.old self.new result }
        ensures effect { (m : Method) (u : Ty) → m.max_stack ≡ max → byte_of u ≡ t → Effect self.old self.new result s (pushes m u) }
    {
        let h = self.heights[s];
        if max <= h {
            return Err(FaultKind::TooMany);
        }
        Ok(self.put(s, t, h + 1))
    }

    pub fn dup(&mut self, s: usize, max: u8) -> Result<usize, FaultKind>
        requires made_below { self.old.made < 2048 }
        requires s_below { s < 2048 }
        ensures small { Small self.old self.new result }
        ensures effect { (M : Module) (m : Method) → m.max_stack ≡ max → Effect self.old self.new result s (plain_effect M m dup) }
    {
        if self.heights[s] < 1 {
            return Err(FaultKind::TooFew);
        }
        let t = self.tops[s];
        self.push(s, t, max)
    }

    pub fn pop(&self, s: usize) -> Result<usize, FaultKind>
        requires s_below { s < 2048 }
        ensures small { Small self.now self.now result }
        ensures effect { (M : Module) (m : Method) → Effect self.now self.now result s (plain_effect M m pop) }
    {
        if self.heights[s] < 1 {
            return Err(FaultKind::TooFew);
        }
        Ok(self.below(s))
    }

    // A value that fits a type is popped.
    pub fn store(&self, parents: &[u8; 33], s: usize, t: u8) -> Result<usize, FaultKind>
        requires s_below { s < 2048 }
        ensures small { Small self.now self.now result }
        ensures effect { (M : Module) (u : Ty) → Parents M.parents parents.now → byte_of u ≡ t → Effect self.now self.now result s (pops_one M u) }
    {
        if self.heights[s] < 1 {
            return Err(FaultKind::TooFew);
        }
        if !fits(parents, self.tops[s], t) {
            return Err(FaultKind::WrongType);
        }
        Ok(self.below(s))
    }

    // A field of an object takes the object's place.
    pub fn ldfld(
        &mut self,
        parents: &[u8; 33],
        s: usize,
        owner: u8,
        t: u8,
    ) -> Result<usize, FaultKind>
        requires made_below { self.old.made < 2048 }
        requires s_below { s < 2048 }
        ensures small { Small self.old self.new result }
        ensures effect { (M : Module) (m : Method) (d : Field) → Parents M.parents parents.now →
            byte_of (class d.owner) ≡ owner → byte_of d.type ≡ t → Effect self.old self.new result s (effect M m (Act.ldfld 0 d)) }
    {
        let rest = self.store(parents, s, owner)?;
        let h = self.heights[s];
        Ok(self.put(rest, t, h))
    }

    pub fn stfld(&self, parents: &[u8; 33], s: usize, owner: u8, t: u8) -> Result<usize, FaultKind>
        requires s_below { s < 2048 }
        ensures small { Small self.now self.now result }
        ensures effect { (M : Module) (m : Method) (d : Field) → Parents M.parents parents.now →
            byte_of (class d.owner) ≡ owner → byte_of d.type ≡ t → Effect self.now self.now result s (effect M m (Act.stfld 0 d)) }
    {
        if self.heights[s] < 2 {
            return Err(FaultKind::TooFew);
        }
        let object = self.below(s);
        if !fits(parents, self.tops[object], owner) {
            return Err(FaultKind::WrongType);
        }
        if !fits(parents, self.tops[s], t) {
            return Err(FaultKind::WrongType);
        }
        Ok(self.below(object))
    }

    // After castclass and isinst the check finds the token's class.
    pub fn cast(&mut self, s: usize, t: u8) -> Result<usize, FaultKind>
        requires made_below { self.old.made < 2048 }
        requires s_below { s < 2048 }
        ensures small { Small self.old self.new result }
        ensures effect { (c : ℕ) → byte_of (class c) ≡ t → Effect self.old self.new result s (cast_effect c) }
    {
        let h = self.heights[s];
        if h < 1 {
            return Err(FaultKind::TooFew);
        }
        if Kind::of(self.tops[s]) != Kind::Reference {
            return Err(FaultKind::WrongType);
        }
        let rest = self.below(s);
        Ok(self.put(rest, t, h))
    }

    pub fn unary(&mut self, s: usize, operator: Unary) -> Result<usize, FaultKind>
        requires made_below { self.old.made < 2048 }
        requires s_below { s < 2048 }
        ensures small { Small self.old self.new result }
        ensures effect { (M : Module) (m : Method) → Effect self.old self.new result s (plain_effect M m (unary (unary_by operator))) }
    {
        let given = operator.gives(self.tops[s]);
        let h = self.heights[s];
        if h < 1 {
            return Err(FaultKind::TooFew);
        }
        let Some(t) = given else {
            return Err(FaultKind::WrongType);
        };
        let rest = self.below(s);
        Ok(self.put(rest, t, h))
    }

    // The result has the type of the first operand.
    pub fn binary(&self, s: usize, pair: Pair) -> Result<usize, FaultKind>
        requires s_below { s < 2048 }
        ensures small { Small self.now self.now result }
        ensures effect { Effect self.now self.now result s (binary_effect pair) }
    {
        if self.heights[s] < 2 {
            return Err(FaultKind::TooFew);
        }
        let first = self.below(s);
        if !pair.takes(self.tops[first], self.tops[s]) {
            return Err(FaultKind::WrongType);
        }
        Ok(first)
    }

    // A comparison gives an int32.
    pub fn compare(&mut self, s: usize, pair: Pair) -> Result<usize, FaultKind>
        requires made_below { self.old.made < 2048 }
        requires s_below { s < 2048 }
        ensures small { Small self.old self.new result }
        ensures effect { Effect self.old self.new result s (compare_effect pair) }
    {
        let first = self.binary(s, pair)?;
        let rest = self.below(first);
        let h = self.heights[first];
        Ok(self.put(rest, INT32, h))
    }

    // A branch on a comparison.
    pub fn when(&self, s: usize, pair: Pair) -> Result<usize, FaultKind>
        requires s_below { s < 2048 }
        ensures small { Small self.now self.now result }
        ensures effect { Effect self.now self.now result s (when_effect pair) }
    {
        let first = self.binary(s, pair)?;
        Ok(self.below(first))
    }

    // brtrue and brfalse take int32, int64 or a reference.
    pub fn test(&self, s: usize) -> Result<usize, FaultKind>
        requires s_below { s < 2048 }
        ensures small { Small self.now self.now result }
        ensures effect { Effect self.now self.now result s (test_effect) }
    {
        if self.heights[s] < 1 {
            return Err(FaultKind::TooFew);
        }
        if Kind::of(self.tops[s]) == Kind::F {
            return Err(FaultKind::WrongType);
        }
        Ok(self.below(s))
    }

    // Exactly the return value, or nothing for void.
    pub fn ret(&self, parents: &[u8; 33], s: usize, due: u8) -> Result<usize, FaultKind>
        requires s_below { s < 2048 }
        ensures small { Small self.now self.now result }
        ensures effect { (M : Module) (m : Method) → Parents M.parents parents.now → Due m due →
            Effect self.now self.now result s (plain_effect M m ret) }
    {
        let h = self.heights[s];
        if due == NULL {
            if h != 0 {
                return Err(FaultKind::WrongType);
            }
            return Ok(EMPTY);
        }
        if h < 1 {
            return Err(FaultKind::TooFew);
        }
        if !fits(parents, self.tops[s], due) {
            return Err(FaultKind::WrongType);
        }
        if h != 1 {
            return Err(FaultKind::WrongType);
        }
        Ok(EMPTY)
    }

    // What is left of a shape when values are popped that fit types, the last on top; none where one does not fit.
    fn pops(&self, parents: &[u8; 33], types: &[u8], s: usize) -> Option<usize>
        requires s_below { s < 2048 }
        ensures rest_below { IfSome result (λ rest. rest < 2048) }
        ensures pops { (ps : List ℕ) (ts : List Ty) (S : Shape) → Parents ps parents.now →
            Types types.now 0 ts → length ts ≡ length types.now → length ts ≤ length S → Fine self.now → Shows self.now S s →
            Pops self.now result (fit_all (fits ps) ts (firsts (length ts) S [])) (drop (length ts) S) }
    {
        let mut rest = s;
        for i in (0..types.len()).rev() {
            if !fits(parents, self.tops[rest], types[i]) {
                return None;
            }
            rest = self.below(rest);
        }
        Some(rest)
    }

    // A call: its arguments are popped, and the value to come, unless it is 0, has room.
    pub fn call(
        &mut self,
        parents: &[u8; 33],
        types: &[u8],
        s: usize,
        gives: u8,
        max: u8,
    ) -> Result<usize, FaultKind>
        requires made_below { self.old.made < 2048 }
        requires s_below { s < 2048 }
        ensures small { Small self.old self.new result }
        ensures effect { (M : Module) (m : Method) (ts : List Ty) (o : Option Ty) → m.max_stack ≡ max →
            Parents M.parents parents.now → Types types.now 0 ts → length ts ≡ length types.now → Gives o gives →
            Effect self.old self.new result s (called_effect M m ts o) }
    {
        if (self.heights[s] as usize) < types.len() {
            return Err(FaultKind::TooFew);
        }
        let Some(rest) = self.pops(parents, types, s) else {
            return Err(FaultKind::WrongType);
        };
        if gives != NULL {
            return self.push(rest, gives, max);
        }
        if max < self.heights[rest] {
            return Err(FaultKind::TooMany);
        }
        Ok(rest)
    }
}
