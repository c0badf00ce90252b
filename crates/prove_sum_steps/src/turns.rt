// The instruction at a place of which a table of sums is checked.

use crate::goals::Goal;
use lab_app_rules::Rules;
use model_text::model_machine::Ins;
use prove_arrivals::Subject;
use prove_keys::PlaceKey;
use prove_spots::Spot;
use prove_sums::Sums;

/// An instruction that was fetched at a place: its key, what is known there of bytes and for sums, the instruction, the
/// address after it, and the places to which it may lead.
#[derive(Clone, Copy)]
pub struct Turn<'a> {
    pub subject: &'a Subject<'a>,
    pub rules: &'a Rules<'a>,
    pub key: &'a PlaceKey,
    pub spot: &'a Spot,
    pub sums: &'a Sums,
    pub ins: &'a Ins,
    pub next: u16,
    pub goals: &'a [Goal<'a>],
}
