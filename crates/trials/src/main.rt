// Document 01's trials that are not proved, run on the calls that C makes. Each prints what was answered; the file stdout has what must be.
#![tactic(auto)]

mod calls;
mod compressed;
mod print;
mod refused;
mod resolution;
mod room;
mod samples;
mod sent;
mod size;
mod weight;

fn main(rt: HostRuntime) {
    room::run(&rt);
    size::run(&rt);
    weight::run(&rt);
    compressed::run(&rt);
    sent::run(&rt);
    refused::run(&rt);
    resolution::run(&rt);
}
