//! Requests for authentication.
ghost use Rattle.std.specs.Prelude.{pos};
ghost use Rattle.pg_messages.specs.Backend.{Requests};

use crate::message::bare;

/// What a server asks of a client before it accepts the session, or that it accepts it. How one
/// answers is the caller's.
#[derive(Debug, Clone, Copy)]
pub enum Authentication<'a> {
    /// The client is authenticated.
    Ok,
    /// Kerberos V5, which servers no longer ask for.
    KerberosV5,
    /// The password.
    CleartextPassword,
    /// The password's MD5 digest, made with this salt.
    Md5Password { salt: [u8; 4] },
    /// GSSAPI.
    Gss,
    /// The next data of GSSAPI or SSPI.
    GssContinue(&'a [u8]),
    /// SSPI.
    Sspi,
    /// SASL by one of these mechanisms: their names, which
    /// [`split_string`](crate::split::split_string) takes one by one, and an empty one.
    Sasl(&'a [u8]),
    /// The challenge of a mechanism of SASL.
    SaslContinue(&'a [u8]),
    /// The outcome of a mechanism of SASL.
    SaslFinal(&'a [u8]),
    /// A request with a code that is none of these, and the bytes after the code.
    Other { code: i32, parameters: &'a [u8] },
}

impl<'a> Authentication<'a> {
    /// Reads what follows this code; `None` if it is not of the code's format.
    pub(crate) fn parse(code: i32, parameters: &'a [u8]) -> Option<Authentication<'a>>
        ensures { Requests code parameters.now result }
    {
        match code {
            0 => bare(parameters, Authentication::Ok),
            2 => bare(parameters, Authentication::KerberosV5),
            3 => bare(parameters, Authentication::CleartextPassword),
            5 => md5_password(parameters),
            7 => bare(parameters, Authentication::Gss),
            8 => Some(Authentication::GssContinue(parameters)),
            9 => bare(parameters, Authentication::Sspi),
            10 => Some(Authentication::Sasl(parameters)),
            11 => Some(Authentication::SaslContinue(parameters)),
            12 => Some(Authentication::SaslFinal(parameters)),
            _ => Some(Authentication::Other { code, parameters }),
        }
    }
}

/// Reads the salt of an MD5 digest.
fn md5_password(parameters: &[u8]) -> Option<Authentication<'_>>
    ensures { Requests (pos 5) parameters.now result }
{
    match parameters {
        [a, b, c, d] => Some(Authentication::Md5Password {
            salt: [*a, *b, *c, *d],
        }),
        _ => None,
    }
}
