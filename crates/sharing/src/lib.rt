// Secret sharing by staircase polynomials over bytes: all of the library's calls under one name, with the demands
// that they meet together as theorems and the worked examples of the rules. A message is split into shares (`dealer`),
// under keys that are lent with it or the next ones of a pool (`key_pool`), a party hands out the prefix of its share
// (`party`), and the readers find their Lagrange basis and the message again (`reader`), or only a range of it, or the share
// of a party that lost it. How long all of these are is asked beforehand (`lengths`). Every call is given a scheme's
// parameters, of which the default ones are `Parameters::default()`. Where both forms of message are treated alike the form
// is an argument; the calls on a message that shows its own end, by its padding, have `padded` in their names.
#![tactic(auto)]

pub use dealer::split;
pub use key_pool::{KeyPool, split_from_pool};
pub use lengths::{MessageLengths, lengths};
pub use party::{prefix, prefix_length, prefix_padded, prefix_padded_length};
pub use reader::{
    PaddedOpening, RebuildRefusal, basis, basis_size, rebuild, reconstruct, reconstruct_padded,
    reconstruct_range,
};
pub use scheme::{Form, Parameters, Refusal};
