// Reads calls on standard input, one a line, makes them on one session, and prints what each answers.
// A program of its own, since each has one stored input.
#![tactic(auto)]

fn main(rt: HostRuntime) {
    callscript::run(rt.stdin(), rt.stdout());
}
