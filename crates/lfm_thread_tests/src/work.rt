//! Tests of runs of workers: whole scripts, devices that fail; gates, the starting line, rows that are counted from a journal,
//! reports and exit statuses. Those of one worker's commands are in `lfm_monitor_tests`.

mod devices;
mod held_workers;
mod meetings;
mod outcomes;
mod report_texts;
mod row_counts;
pub mod scripts;
mod start_together;
