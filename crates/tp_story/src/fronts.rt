//! A record followed up to an entry.

ghost use Rattle.std.specs.Prelude.{ℕ, ◌≡◌, ◌∷◌, [], List, Err, suc, length, IfOk, IsOkUnless, OnOk, OnErr};
ghost use Rattle.tp_types.specs.Config.{IsConfig};
ghost use Rattle.tp_record.specs.declared.entries.Entry.{Entry as Told};
ghost use Rattle.tp_record.specs.State as states;
ghost use Rattle.tp_record.specs.Step as steps;
ghost use Rattle.tp_audit.specs.Tables.{shown, undone};
ghost use Rattle.tp_story.specs.Since.{Timed};
ghost use Rattle.tp_story.specs.Fronts.{first_of, has_entry, is_full};

use crate::times::Times;
use std::alloc::Global;
use std::marker::Model;
use tp_audit::auditor::Auditor;
use tp_audit::tables::Tables;
use tp_audit_plain::summary::Flaw;
use tp_record::entries::Entry;
use tp_types::configs::Config;

/// A record up to an entry, or up to its end.
#[derive(Drop)]
pub struct Front {
    config: Config,
    auditor: Auditor,
    times: Times,
    until: Option<u64>,
}

impl Model for Front {
    ghost use Rattle.std.specs.Coded.{codes};
    ghost use Rattle.tp_audit.specs.contracts.tables.Tables as kept;
    ghost use Rattle.tp_story.specs.contracts.times.Times as noted;
    ghost use Rattle.tp_story.specs.Fronts.{Followed};

    ghost Value = { Followed };

    ghost coded = { Prim.hlevel (codes, kept.the_row.coded, noted.the_row.coded) };

    ghost view = { λ f. record { config = f.config; judge = f.auditor; times = f.times; until = f.until } };
}

impl Front {
    ghost use Rattle.tp_audit.specs.Audited.{settings};
    ghost use Rattle.tp_story.specs.Fronts.{Follows};

    /// The record of a pool that is made with `config`, before the first entry; it will be followed up to the entry of this
    /// number, or to its end. Want of memory is NoMemory (4).
    pub fn new(alloc: Global, config: &Config, until: Option<u64>) -> Result<Front, Flaw>
        requires { IsConfig config.now }
        ensures config { IfOk result (λ f. f.config ≡ config.now) }
        ensures settings { IfOk result (λ f. settings f.judge ≡ config.now) }
        ensures until { IfOk result (λ f. f.until ≡ until) }
        ensures follows { IfOk result (λ f. Follows f []) }
        ensures refused { IsOkUnless result Flaw.NoMemory }
    {
        match Auditor::new(alloc, config) {
            Ok(auditor) => Ok(Front {
                config: *config,
                auditor,
                times: Times::new(alloc),
                until,
            }),
            Err(flaw) => Err(flaw),
        }
    }

    /// Whether the entry is reached up to which the record is followed.
    pub fn is_reached(&self) -> bool
        ensures { result ≡ is_full self.now.until self.now.judge.tables.steps }
    {
        match self.until {
            Some(number) => u64::from(self.auditor.tables().steps) >= number,
            None => false,
        }
    }

    /// Whether the record has the entry up to which it is followed, if there is one.
    pub fn has_entry(&self) -> bool
        ensures { result ≡ has_entry self.now.until self.now.judge.tables.steps }
    {
        match self.until {
            Some(_) => self.is_reached(),
            None => true,
        }
    }

    /// Tells the next entry of the record: one behind the entry up to which it is followed changes nothing. One that the step does
    /// not give after those before it is a flaw, with its number, from 1; want of memory is NoMemory (4). After either all is as
    /// it was.
    #[tactic(auto, using(crate::proofs::Cutting::stays, crate::proofs::Cutting::times_stay))]
    pub fn tell(&mut self, entry: &Entry) -> Result<(), Flaw>
        ensures told { OnOk result ((h : List Told) → Follows self.old h → Follows self.new (entry.now ∷ h)) }
        ensures flaw { (n : ℕ) → result ≡ Err (Flaw.At n) → (h : List Told) → Follows self.old h
            → (first_of self.old.until h ≡ h) × (n ≡ suc (length (first_of self.old.until h))) × (steps.Gives (settings self.old.judge) (states.state (settings self.old.judge) (first_of self.old.until h)) entry.now.ask entry.now.did → ⊥) }
        ensures same { OnErr result ((h : List Told) → Follows self.old h → Follows self.new h) }
        ensures config { self.new.config ≡ self.old.config }
        ensures settings { settings self.new.judge ≡ settings self.old.judge }
        ensures until { self.new.until ≡ self.old.until }
    {
        if self.is_reached() {
            return Ok(());
        }
        if self.times.reserve().is_err() {
            return Err(Flaw::NoMemory);
        }
        match self.auditor.push(entry) {
            Ok(()) => {}
            Err(flaw) => return Err(flaw),
        }
        self.times.note(entry, self.auditor.tables());
        Ok(())
    }

    /// The number of the entry up to which the record is followed, if one was given.
    pub fn until(&self) -> Option<u64>
        ensures { result ≡ self.now.until }
    {
        self.until
    }

    /// The settings with which the pool was made.
    pub fn config(&self) -> &Config
        ensures config { result.now ≡ self.now.config }
        ensures settings { (h : List Told) → Follows self.now h → result.now ≡ settings self.now.judge }
    {
        &self.config
    }

    /// Since when tasks and slots are where they are.
    pub fn times(&self) -> &Times
        ensures times { result.now ≡ self.now.times }
        ensures timed { (h : List Told) → Follows self.now h → Timed (first_of self.now.until h) result.now }
    {
        &self.times
    }

    /// The auditor that was told the entries up to there.
    pub fn auditor(&self) -> &Auditor
        ensures { result.now ≡ self.now.judge }
    {
        &self.auditor
    }

    /// What the entries up to there say of the pool.
    pub fn tables(&self) -> &Tables
        ensures tables { result.now ≡ self.now.judge.tables }
        ensures shown { (h : List Told) → Follows self.now h → shown result.now ≡ undone (states.state (settings self.now.judge) (first_of self.now.until h)) }
    {
        self.auditor.tables()
    }
}
