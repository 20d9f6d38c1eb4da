// Rulings for trials and measurements, and a layer that counts the questions of a ruling.
#![tactic(auto)]

mod arithmetic;
mod counted;
mod marking;
mod opening;
mod product;
mod rules;
mod sample;
mod sampling;

pub use arithmetic::Arithmetic;
pub use counted::Counted;
pub use marking::Marking;
pub use opening::Opening;
pub use product::Product;
pub use rules::Rules;
pub use sample::Sample;
pub use sampling::open;
