// The lengths that a message of so many bytes asks for, in both forms: nobody who splits or opens one has to work them out.
#![tactic(auto)]

ghost use Rattle.std.specs.Prelude.{◌≡◌, [], ◌∷◌, ◌*◌, ◌≤◌};
ghost use Rattle.scheme.specs.Limits.{max_blocks};
ghost use Rattle.staircase.specs.Parameters.{given_parameters};
ghost use Rattle.lengths.specs.Lengths.{lengths_values, lengths_outcome, lengths_in};

use scheme::{Form, Parameters, Refusal, Scheme};

// What belongs to a message: its blocks N, and the bytes of its keys, of one share, of all shares, which the splitter writes,
// and of what the opener writes.
#[derive(Clone, Copy)]
pub struct MessageLengths {
    pub blocks: usize,
    pub keys: usize,
    pub share: usize,
    pub output: usize,
    pub opened: usize,
}

// The lengths of a message of this form. Refusals 1 to 4: those of the scheme. 5: the message is too long.
// Inlined, so that at the default scheme its check is worked out when the library is compiled.
#[inline(always)]
pub fn lengths(
    form: Form,
    given: Parameters,
    message_length: usize,
) -> Result<MessageLengths, Refusal>
    ensures { lengths_outcome result ≡ lengths_in form (given_parameters given.entry) message_length }
{
    let s = scheme::check(given)?;
    let blocks = s.blocks(form, message_length)?;
    // The opener writes the message alone, and of a padded one whole blocks.
    let opened = match form {
        Form::Earlier => message_length,
        Form::Padded => blocks * s.block,
    };
    Ok(of_blocks(s, blocks, opened))
}

// The lengths that so many blocks make, of which the opener writes so many bytes.
fn of_blocks(s: Scheme, blocks: usize, opened: usize) -> MessageLengths
    requires { blocks ≤ max_blocks }
    ensures { lengths_values result ≡ blocks ∷ blocks * s.entry.z * s.entry.rows ∷ blocks * s.entry.rows ∷ s.entry.n * blocks * s.entry.rows ∷ opened ∷ [] }
{
    MessageLengths {
        blocks,
        keys: blocks * usize::from(s.z) * s.rows,
        share: blocks * s.rows,
        output: usize::from(s.n) * blocks * s.rows,
        opened,
    }
}
