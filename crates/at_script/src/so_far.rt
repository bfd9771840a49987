//! What the lines of a script so far say.
ghost use Rattle.std.specs.Prelude.{◌≡◌, ◌≤◌, ◌<◌, length, Bool};
ghost use Rattle.at_script.specs.Limits as limits;
ghost use Rattle.at_script.specs.declared.stage.BlockKind.TheVariants as block_kinds;
ghost use Rattle.at_script.specs.declared.stage.Stage.TheVariants as stages;

use crate::stage::Stage;
use crate::stmt::Stmt;
use crate::tables::Tables;
use std::alloc::Global;

/// What the lines so far say.
#[derive(Drop)]
pub struct Reader<'a> {
    pub alloc: Global,
    pub tables: Tables<'a>,
    pub stage: Stage,
    /// How many bytes the lines so far have.
    pub bytes: usize,
    pub budget: u32,
    /// The statements of the block in which the next line stands.
    pub block: Vec<Stmt>,
    pub bodies: Vec<Vec<Stmt>>,
    pub main: Vec<Stmt>,
    pub threads: Vec<Vec<Stmt>>,
    pub finally: Option<Vec<Stmt>>,
    ghost least: { 1 ≤ budget },
    ghost most: { budget ≤ limits.most_budget },
    ghost few: { length threads.items ≤ limits.most_threads },
    ghost room: { (section : Bool) → stage ≡ stages.Within block_kinds.Thread section
        → length threads.items < limits.most_threads },
}
