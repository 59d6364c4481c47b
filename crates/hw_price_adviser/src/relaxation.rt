//! The Lagrangian relaxation that an adviser keeps of a problem: prices, and the tolls that it has named.

ghost use Rattle.std.specs.Prelude.{◌≤◌, length, All, IfOk, IfSome};
ghost use Rattle.hw_model.specs.Rooms.{RoomFits};
ghost use Rattle.hw_price_laws.specs.Tolls.{IsToll};
ghost use Rattle.hw_search_advice.specs.Advisers.{IsAdviceIn, IsBoundIn, IsScene};

use crate::answering::{advice_anew, advice_in_force, bounding};
use crate::cuts::cuts;
use crate::loosening::loosened;
use crate::preferring::{by_earnings, by_regret};
use crate::proposals::{Proposal, follow, name_rows, proposal_of};
use crate::settings::{
    CUTS, DEEPEST, ENOUGH, EXPLORED, IDLE, LAST_PACE, LAST_STEPS, MADE, ROOM_STEPS, SEARCHED,
};
use crate::variation::Variation;
use hw_flat::Room;
use hw_model::{Lit, NoMemory};
use hw_price_dual::{
    Course, Pricer, ROOM_PACE, Table, Workshop, add_tolls, find_prices, goal, price_at,
};
use hw_price_laws::MOST_TOLLS;
use hw_price_tests::RulesByPair;
use hw_search_advice::{Advice, Bounding, Scene, Standing};
use std::alloc::Global;

/// What an adviser keeps of a problem.
#[derive(Drop)]
pub(crate) struct Relaxation {
    variation: Variation,
    pricer: Pricer,
    /// In how many rooms prices were moved under a best.
    rooms: u32,
    rules: RulesByPair,
    /// The rows whose tolls are declared, in order; none where a row was dropped.
    named: Vec<Option<usize>>,
    /// What ships earn under the tariff in force.
    table: Option<Table>,
    /// What they earn under the last prices, where these didn't come into force.
    latest: Option<Table>,
    /// Where the tariff in force may have more cuts.
    cutting: Option<Standing>,
    /// The prices for the whole room.
    root: Vec<i64>,
    /// What it earns under them, in parts.
    least: i64,
    /// The best for which they were found.
    sought: Option<u64>,
    /// Whether their bound was tried.
    tried: bool,
    /// The last bound that was answered.
    bound: Option<u64>,
}

/// What to answer under new prices.
#[derive(Drop)]
struct Plan {
    table: Table,
    lits: Vec<Lit>,
    /// Whether there may be more cuts.
    more: bool,
}

impl Relaxation {
    /// Finds the prices for the whole room.
    pub(crate) fn new(
        alloc: Global,
        scene: &Scene<'_>,
        shop: &mut Workshop,
        variation: Variation,
    ) -> Result<Relaxation, NoMemory> {
        let mut pricer = Pricer::new(alloc, scene.flat)?;
        let whole = Room::whole(alloc, scene.flat.shape())?;
        let least = find_prices(alloc, scene.flat, &mut pricer, &whole, scene.best, shop)?;
        let root = Vec::from_slice(alloc, &pricer.prices)?;
        Ok(Relaxation {
            variation,
            pricer,
            rooms: 0,
            rules: RulesByPair::new(alloc, scene.flat)?,
            named: Vec::new(alloc),
            table: None,
            latest: None,
            cutting: None,
            root,
            least,
            sought: scene.best,
            tried: false,
            bound: None,
        })
    }

    /// One more clause: under the tariff in force, else under better prices.
    pub(crate) fn advise(
        &mut self,
        alloc: Global,
        scene: &Scene<'_>,
        shop: &mut Workshop,
    ) -> Result<Option<Advice>, NoMemory>
        requires { IsScene scene.now }
        ensures advice { IfOk result (λ answer. IfSome answer (IsAdviceIn scene.now)) }
    {
        let Some(best) = scene.best else {
            self.explore(alloc, scene, shop)?;
            return Ok(None);
        };
        if let Some(lits) = self.lits_in_force(alloc, scene, best)? {
            return advice_in_force(alloc, scene, lits);
        }
        match self.plan(alloc, scene, best, shop)? {
            None => Ok(None),
            Some(plan) => self.carry_out(alloc, scene, plan),
        }
    }

    /// Finds prices that tell which slots are worth most, where there is no best.
    fn explore(
        &mut self,
        alloc: Global,
        scene: &Scene<'_>,
        shop: &mut Workshop,
    ) -> Result<(), NoMemory> {
        self.pricer
            .improve(scene.room, Course::towards(None, EXPLORED, ROOM_PACE))?;
        let table = self.present(alloc)?;
        shop.make_by(alloc, scene.room, &table, None)?;
        self.latest = Some(table);
        Ok(())
    }

    /// What ships earn under the prices that stand.
    fn present(&self, alloc: Global) -> Result<Table, NoMemory> {
        self.pricer.table(alloc, &self.pricer.prices)
    }

    /// The literals of a clause under the tariff in force.
    fn lits_in_force(
        &mut self,
        alloc: Global,
        scene: &Scene<'_>,
        best: u64,
    ) -> Result<Option<Vec<Lit>>, NoMemory> {
        let (Some(_), Some(table)) = (scene.tariff, &self.table) else {
            return Ok(None);
        };
        let limit = table.limit(best);
        if table.total(scene.room) <= limit {
            return Ok(Some(loosened(alloc, table, scene.room, None, limit)?));
        }
        if self.cutting != Some(scene.standing) {
            return Ok(None);
        }
        match cuts(alloc, table, scene.room, limit)?.first().copied() {
            None => Ok(None),
            Some(cut) => Ok(Some(loosened(alloc, table, scene.room, Some(cut), limit)?)),
        }
    }

    /// What to answer under better prices, if that is worth it.
    fn plan(
        &mut self,
        alloc: Global,
        scene: &Scene<'_>,
        best: u64,
        shop: &mut Workshop,
    ) -> Result<Option<Plan>, NoMemory> {
        self.move_prices(alloc, scene, goal(best))?;
        let table = self.present(alloc)?;
        if self.rooms % MADE == 0 {
            shop.make_by(alloc, scene.room, &table, scene.best)?;
        }
        let limit = table.limit(best);
        if table.total(scene.room) <= limit {
            let lits = loosened(alloc, &table, scene.room, None, limit)?;
            return Ok(Some(Plan {
                table,
                lits,
                more: false,
            }));
        }
        let cuts = cuts(alloc, &table, scene.room, limit)?;
        if cuts.len() < CUTS {
            self.latest = Some(table);
            return Ok(None);
        }
        let lits = loosened(alloc, &table, scene.room, cuts.first().copied(), limit)?;
        Ok(Some(Plan {
            table,
            lits,
            more: true,
        }))
    }

    /// Moves the prices for a room, and now and then looks for more tolls there, or drops candidates that
    /// were of no use.
    fn move_prices(&mut self, alloc: Global, scene: &Scene<'_>, goal: i64) -> Result<(), NoMemory> {
        let course = Course::towards(Some(goal), self.variation.steps(ROOM_STEPS), ROOM_PACE);
        let least = self.pricer.improve(scene.room, course)?;
        self.rooms = self.rooms.wrapping_add(1);
        if goal < least && self.looks_for_tolls(scene) {
            if add_tolls(alloc, scene.flat, &mut self.pricer, scene.room, goal)? {
                self.pricer.improve(scene.room, course)?;
            }
        }
        self.pricer.count_idle();
        if self.rooms % IDLE == 0 {
            self.drop_idle(alloc)?;
        }
        Ok(())
    }

    fn looks_for_tolls(&self, scene: &Scene<'_>) -> bool {
        self.rooms % SEARCHED == 0
            && scene.standing.level <= DEEPEST
            && self.pricer.rows.len() < ENOUGH
            && scene.tolls.len() < ENOUGH
    }

    /// Drops the candidates that had no price in the last rooms, nor for the whole room.
    fn drop_idle(&mut self, alloc: Global) -> Result<(), NoMemory> {
        let places = self.pricer.drop_idle(alloc, IDLE, &self.root)?;
        for row in self.named.iter_mut() {
            *row = moved(&places, *row);
        }
        let mut root = Vec::new(alloc);
        for (place, new) in places.iter().enumerate() {
            if new.is_some() {
                root.push(price_at(&self.root, place))?;
            }
        }
        self.root = root;
        Ok(())
    }

    /// The advice of a plan. Its prices are then in force.
    fn carry_out(
        &mut self,
        alloc: Global,
        scene: &Scene<'_>,
        plan: Plan,
    ) -> Result<Option<Advice>, NoMemory>
        requires room { RoomFits scene.now.flat.now scene.now.room.now }
        requires tolls { All (IsToll scene.now.flat.now) scene.now.tolls.now }
        requires few { length scene.now.tolls.now ≤ MOST_TOLLS }
        ensures advice { IfOk result (λ answer. IfSome answer (IsAdviceIn scene.now)) }
    {
        let Plan { table, lits, more } = plan;
        let declared = scene.tolls.len();
        follow(&mut self.named, &mut self.pricer.rows, declared)?;
        let Proposal { offer, rows } = proposal_of(
            alloc,
            &self.pricer.rows,
            &self.named,
            &self.pricer.prices,
        )?;
        let answer = advice_anew(alloc, scene, &mut self.rules, offer, lits)?;
        if answer.is_some() {
            name_rows(&mut self.named, &mut self.pricer.rows, &rows)?;
            self.table = Some(table);
            self.latest = None;
            self.cutting = if more { Some(scene.standing) } else { None };
        }
        Ok(answer)
    }

    /// A new upper bound on the cargo, if below the last one returned; its prices come into force. If
    /// `last`, the prices are improved once more first.
    pub(crate) fn bound(
        &mut self,
        alloc: Global,
        scene: &Scene<'_>,
        last: bool,
    ) -> Result<Option<Bounding>, NoMemory>
        requires tolls { All (IsToll scene.now.flat.now) scene.now.tolls.now }
        requires few { length scene.now.tolls.now ≤ MOST_TOLLS }
        ensures bound { IfOk result (λ answer. IfSome answer (IsBoundIn scene.now)) }
    {
        if last && self.sought != scene.best {
            self.look_again(alloc, scene)?;
        }
        if self.tried {
            return Ok(None);
        }
        self.tried = true;
        let declared = scene.tolls.len();
        follow(&mut self.named, &mut self.pricer.rows, declared)?;
        let table = self.pricer.table(alloc, &self.root)?;
        let Proposal { offer, rows } = proposal_of(
            alloc,
            &self.pricer.rows,
            &self.named,
            &self.root,
        )?;
        match bounding(alloc, scene, &mut self.rules, offer)? {
            Some(answer) if self.is_lower(answer.bound) => {
                name_rows(&mut self.named, &mut self.pricer.rows, &rows)?;
                self.table = Some(table);
                self.latest = None;
                self.cutting = None;
                self.bound = Some(answer.bound);
                Ok(Some(answer))
            }
            _ => Ok(None),
        }
    }

    /// Whether a bound is below the last one that was answered.
    fn is_lower(&self, bound: u64) -> bool {
        match self.bound {
            None => true,
            Some(last) => bound < last,
        }
    }

    /// Looks for better prices for the whole room, from those that were found before.
    fn look_again(&mut self, alloc: Global, scene: &Scene<'_>) -> Result<(), NoMemory> {
        let whole = Room::whole(alloc, scene.flat.shape())?;
        self.pricer.take_prices(&self.root);
        let course = Course::towards(scene.best.map(goal), LAST_STEPS, LAST_PACE);
        let least = self.pricer.improve(&whole, course)?;
        self.sought = scene.best;
        if least < self.least {
            self.least = least;
            self.root = Vec::from_slice(alloc, &self.pricer.prices)?;
            self.tried = false;
        }
        Ok(())
    }

    /// The literal by which to decide: by what ships earn under the last prices, and after some restarts
    /// by regret.
    pub(crate) fn prefer(&self, scene: &Scene<'_>) -> Option<Lit> {
        let table = match &self.latest {
            None => &self.table,
            Some(_) => &self.latest,
        };
        let variation = self.variation;
        let by_regrets = scene.best.is_some() && variation.is_by_regret(scene.standing.restarts);
        match table {
            Some(table) if !by_regrets => by_earnings(table, scene.room, variation),
            _ => by_regret(scene.flat, scene.room, variation),
        }
    }
}

/// Where the row at a place, if there is one, stands after rows were dropped.
fn moved(places: &[Option<usize>], row: Option<usize>) -> Option<usize> {
    match row {
        None => None,
        Some(row) => places.get(row).copied().flatten(),
    }
}
