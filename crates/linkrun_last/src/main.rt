// `linkrun` for a session that has one message number left.
// A program of its own, since each has one stored input.
#![tactic(auto)]

fn main(rt: HostRuntime) {
    linkscript::run(rt.stdin(), rt.stdout(), 4294967295);
}
