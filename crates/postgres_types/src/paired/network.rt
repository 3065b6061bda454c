//! Addresses are read back as themselves.
ghost use Rattle.std.specs.Prelude.{◌≡◌, refl};
ghost use Rattle.postgres_types.specs.Laws.FixedBytesBack.{fixed_bytes_lawful};
ghost use Rattle.postgres_types.specs.Laws.NetworkBack.{address_lawful, cidr_lawful, inet_lawful};
ghost use Rattle.postgres_types.specs.ReadingBack.{BackKept};

use crate::paired::Paired;
use pg_base::network::{IpCidr, IpInet, MacAddress};
use std::net::IpAddr;

/// An address is read back as itself: it is written with a netmask of all its bits, which reading
/// ignores.
impl<'a> Paired<'a> for IpAddr {
    ghost back = { λ _. BackKept (λ v w. v ≡ w) };

    ghost types = { λ _. refl };

    ghost lawful = { λ _ _. address_lawful };
}

/// An address is read back with its netmask.
impl<'a> Paired<'a> for IpInet {
    ghost back = { λ _. BackKept (λ v w. v ≡ w) };

    ghost types = { λ _. refl };

    ghost lawful = { λ _ _. inet_lawful };
}

/// A network is read back as itself, with its netmask.
impl<'a> Paired<'a> for IpCidr {
    ghost back = { λ _. BackKept (λ v w. v ≡ w) };

    ghost types = { λ _. refl };

    ghost lawful = { λ _ _. cidr_lawful };
}

/// A MAC address is read back as itself.
impl<'a> Paired<'a> for MacAddress {
    ghost back = { λ _. BackKept (λ v w. v ≡ w) };

    ghost types = { λ _. refl };

    ghost lawful = { λ _ _. fixed_bytes_lawful 6 };
}
