//! Who answers calls.
ghost use Rattle.std.specs.Prelude.{ℕ, ◌≡◌, ◌≤◌, List, OnOk, length};

use dt_items::NoMemory;

/// Answers calls. The answer is known by the payload alone.
pub trait Handler {
    ghost answer: { Self → List ℕ → List ℕ };

    /// Puts the answer to a payload of at most 65,528 octets in place of what was in `reply`. It has at
    /// most 65,528 octets. `NoMemory` where there is none for it.
    fn serve(&self, payload: &[u8], reply: &mut Vec<u8>) -> Result<(), NoMemory>
        requires { length payload.now ≤ 65528 }
        ensures { OnOk result (reply.new.items ≡ answer self.now payload.now) };

    ghost within: { (handler : Self) (payload : List ℕ) → length payload ≤ 65528 → length (answer handler payload) ≤ 65528 };
}

/// Answers a payload with its octets in reversed order.
#[derive(Clone, Copy)]
pub struct Reversing;

impl Handler for Reversing {
    ghost use Rattle.std.specs.Prelude.{ℕ, ◌≤◌, reverse};
    ghost use Rattle.std.proofs.Common.{subst, sym};
    ghost use Rattle.std.proofs.lemmas.List.{length-reverse};

    ghost answer = { λ _ payload. reverse payload };

    fn serve(&self, payload: &[u8], reply: &mut Vec<u8>) -> Result<(), NoMemory> {
        reply.clear();
        reply.extend_from_slice(payload)?;
        reply.reverse();
        Ok(())
    }

    ghost within = { λ _ payload few. let P : ℕ → Type 0 = λ n. n ≤ 65528 in subst P (sym (length-reverse payload)) few };
}
