// Reads calls on standard input, one a line, makes them on one session, and prints what each answers.
#![tactic(auto)]

fn main(rt: HostRuntime) {
    callscript::run(rt.stdin(), rt.stdout());
}
