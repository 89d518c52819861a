// Reads calls on standard input, for a fresh class 2 session, and prints each.
#![tactic(auto)]

fn main(rt: HostRuntime) {
    linkscript::run(rt.stdin(), rt.stdout(), 1);
}
