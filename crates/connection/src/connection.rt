// One connection: what it knows, the decoder's table, the scheduler that it picks by and the site that it serves.
use scheduler::meaning::Scheduler;
use site::site::Site;
use state::engine::Core;
use tables::table::Table;

#[derive(Drop)]
pub struct Connection<S: Scheduler, W: Site> {
    core: Core,
    table: Table,
    scheduler: S,
    site: W,
}

pub mod calls;
