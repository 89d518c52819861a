// `linkrun` on a script with refusals, limits and lines that are no calls.
// A program of its own, since each has one stored input.
#![tactic(auto)]

fn main(rt: HostRuntime) {
    linkscript::run(rt.stdin(), rt.stdout(), 1);
}
