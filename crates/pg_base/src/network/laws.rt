//! What equality and the formats of addresses mean, each as a call whose contract says it.
ghost use Rattle.std.specs.Prelude.{◌≡◌, ◌↔◌, IsTrue};
ghost use Rattle.pg_base.specs.Formats.{IsComplete, IsGrammar};
ghost use Rattle.pg_base.specs.Network.{FormAddress, FormCidr, FormInet, first_fault_cidr, first_fault_inet};

use super::{IpCidr, IpInet, MacAddress};

/// Whether two addresses with their netmasks are equal: with the same address and the same netmask.
pub fn same_inet(a: &IpInet, b: &IpInet) -> bool
    ensures { IsTrue result ↔ (a.now ≡ b.now) }
{
    *a == *b
}

/// Whether two networks are equal: with the same first address and the same netmask.
pub fn same_cidr(a: &IpCidr, b: &IpCidr) -> bool
    ensures { IsTrue result ↔ (a.now ≡ b.now) }
{
    *a == *b
}

/// Whether two MAC addresses are equal: of the same bytes.
pub fn same_mac_address(a: &MacAddress, b: &MacAddress) -> bool
    ensures { IsTrue result ↔ (a.now ≡ b.now) }
{
    *a == *b
}

/// The format of INET is a grammar, whose checks are complete.
#[tactic(auto, using(crate::proofs::NetworkLaws::inet_grammar, crate::proofs::CompletenessNetwork::inet_complete))]
pub fn inet_format()
    ensures grammar { IsGrammar (λ n m. n ≡ m) FormInet first_fault_inet }
    ensures complete { IsComplete FormInet first_fault_inet }
{}

/// The format of CIDR is a grammar, whose checks are complete.
#[tactic(auto, using(crate::proofs::NetworkLaws::cidr_grammar, crate::proofs::CompletenessNetwork::cidr_complete))]
pub fn cidr_format()
    ensures grammar { IsGrammar (λ n m. n ≡ m) FormCidr first_fault_cidr }
    ensures complete { IsComplete FormCidr first_fault_cidr }
{}

/// So is INET's, of which the netmask is left out.
#[tactic(auto, using(crate::proofs::NetworkLaws::address_grammar, crate::proofs::CompletenessNetwork::host_complete))]
pub fn address_format()
    ensures grammar { IsGrammar (λ a b. a ≡ b) FormAddress first_fault_inet }
    ensures complete { IsComplete FormAddress first_fault_inet }
{}
