ghost use Rattle.std.specs.Prelude.{◌≡◌, nat_eq, codes, [], ◌∷◌, ◌++◌, IfOk, IfErr};
ghost use Rattle.std.specs.Option.{ForSome};
ghost use Rattle.std.specs.List.{starts_with};
ghost use Rattle.gds_cli.specs.Trouble.{WasReadFor, IsChange};

use super::trouble::Trouble;
use host_model::{FileNo, Host};

/// How a closed file of before images begins: with its label and a first gate of 0.
const CLOSED: [u8; 9] = *b"GDSBIMG1\0";

/// Whether the file of before images is closed.
pub(crate) fn is_closed<H: Host>(host: &mut H) -> Result<bool, Trouble>
    ensures value { IfOk result (λ b. ForSome (H.told host.old) (λ c.
        b ≡ starts_with nat_eq c.images (codes "GDSBIMG1" ++ 0 ∷ []))) }
    ensures host { WasReadFor H.told H.failures host.old host.new result }
    ensures changed { IfErr result (λ t. IsChange t → ⊥) }
{
    let mut front = [0u8; CLOSED.len()];
    let count = host.read(FileNo::Images, 0, &mut front)?;
    Ok(count == CLOSED.len() && front == CLOSED)
}
