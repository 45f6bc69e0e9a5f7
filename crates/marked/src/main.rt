// Runs the reader's calls on the marked examples of document 01, each in chunks of several sizes, and on refusals 1 to 5 at their edges.
#![tactic(auto)]

mod calls;
mod compare;
mod driver;
mod examples;
mod refusals;
mod telling;

fn main(rt: HostRuntime) {
    examples::run(&rt);
    refusals::run(&rt);
}
