//! What holds of the texts of chains.
ghost use Rattle.std.specs.Prelude.{◌≡◌, true};
ghost use Rattle.chain_text.specs.Named.{ReadsChain};
ghost use Rattle.chain_text.specs.Printed.{IsNamed, chain_text};
ghost use Rattle.chain_text.specs.Reading.{is_chain};
ghost use Rattle.chain_text.specs.Values.{chain_value};

use crate::chain::Chain;
use feast_base::Name;

/// What holds of the text that `print` writes of a chain that `name` gave with these names: it is to be
/// read as a chain, and read and named with these names it says this one. The call does nothing: its
/// contract is the law.
#[tactic(auto, using(crate::proofs::Round::begins_again, crate::proofs::Round::reads_again))]
pub fn reads_again(chain: &Chain, names: &[Name])
    requires { IsNamed names.now (chain_value chain.now) }
    ensures begins { is_chain (chain_text names.now (chain_value chain.now)) ≡ true }
    ensures again { ReadsChain (chain_text names.now (chain_value chain.now)) names.now (chain_value chain.now) }
{
    // Only the contract speaks of the arguments; they are read so that none is unused.
    let _legs = chain.legs;
    let _names = names.len();
}
