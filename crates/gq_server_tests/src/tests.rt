mod loads;
mod runs;
mod worker_runs;
