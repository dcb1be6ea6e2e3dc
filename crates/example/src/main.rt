// The library as Rattle code uses it: a bank by value, with one pair of tap lists or two, both bands of a line and back, levels with a part handed out and the line restored, there and back in one call.
#![tactic(auto)]

mod back;
mod banks;
mod depths;
mod lines;
mod show;

fn main() {
    banks::made();
    banks::refused();
    lines::bands();
    depths::parts();
    depths::restored();
    back::returned();
}
