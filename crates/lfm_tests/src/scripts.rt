//! Tests of scripts of workers: how they are read, their faults, the commands of each worker, and memory that runs out.
mod faults;
mod out_of_memory;
mod written;
