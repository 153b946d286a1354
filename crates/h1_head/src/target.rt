// What a request's target gives.
ghost use Rattle.std.specs.List.{list_all};
ghost use Rattle.std.specs.Prelude.{◌≡◌, ◌<◌, ◌+◌, ◌^◌, ◌==◌, ◌&&◌, length, drop, slice_index, IfOk};
ghost use Rattle.h1_model.specs.Listed.{scheme_text};
ghost use Rattle.h1_model.specs.Target.{is_visible, is_path_value_byte, is_path_value, is_options, scheme_of, origin_target, absolute_path, is_absolute_path, absolute_target, target_of, IsTargetOf};
ghost use Rattle.http_uri.specs.ByteClasses.{slash, question_mark, split_once_front, split_once_back};
ghost use Rattle.http_uri.specs.Uri.{uri_scheme, uri_authority};
ghost use Rattle.h1_head.specs.Targets.{seen_scheme, seen_scheme_option, seen_target_option, query_passes, is_plain_path_byte, is_plain_query_byte, is_plain_origin};

use crate::head::TargetForm;
use gate_base::{Octets, OutOfMemory};
use http_uri::{Uri, UriError};
use memchr::memchr;
use std::alloc::{AllocError, Global};

/// The longest target that `http_uri` reads.
const TARGET_LIMIT: usize = 65_534;

/// A scheme that a target may have.
#[derive(Clone, Copy)]
pub enum Scheme {
    Http,
    Https,
}

impl Scheme {
    /// The scheme as it is written.
    pub fn as_bytes(self) -> &'static [u8]
        ensures { result.now ≡ scheme_text (seen_scheme self) }
    {
        match self {
            Scheme::Http => b"http",
            Scheme::Https => b"https",
        }
    }
}

/// The parts that a target gives. Where it gives no authority, Host does.
#[derive(Drop)]
pub struct RequestTarget {
    pub form: TargetForm,
    pub scheme: Scheme,
    pub authority: Option<Octets>,
    pub path: Octets,
}

/// Whether a byte is one from 21 to 7E.
pub fn is_visible(byte: u8) -> bool
    ensures { result ≡ is_visible byte }
{
    b' ' < byte && byte < 0x7f
}

/// Whether the first byte of a text is this, which is not 0.
pub fn begins_with(text: &[u8], byte: u8) -> bool
    requires { 0 < byte }
    ensures { result ≡ (slice_index text.now 0 == byte) }
{
    match text {
        [first, ..] => *first == byte,
        [] => false,
    }
}

/// Whether all bytes are visible, and none is a `#`.
fn has_path_bytes(text: &[u8]) -> bool
    ensures { result ≡ list_all is_path_value_byte text.now }
{
    text.iter().all(|b| is_visible(*b) && *b != b'#')
}

/// Whether a text begins with `/` and has only visible bytes but for `#`.
fn is_path_value(path: &[u8]) -> bool
    ensures { result ≡ is_path_value path.now }
{
    begins_with(path, b'/') && has_path_bytes(path)
}

/// Whether a method is OPTIONS.
fn is_options(method: &[u8]) -> bool
    ensures { result ≡ is_options method.now }
{
    method == b"OPTIONS".as_slice()
}

/// Whether a byte is one of a path (RFC 3986 section 3.3, and a few more) that this profile takes.
fn is_plain_path_byte(b: u8) -> bool
    ensures { result ≡ is_plain_path_byte b }
{
    matches!(b, 33..=34 | 36..=59 | 61 | 64..=95 | 97..=126)
}

/// Whether a byte is one of a query (RFC 3986 section 3.4, and a few more) that this profile takes.
fn is_plain_query_byte(b: u8) -> bool
    ensures { result ≡ is_plain_query_byte b }
{
    matches!(b, 33 | 36..=59 | 61 | 63..=126)
}

/// Whether all bytes of a path are such.
fn has_plain_path(path: &[u8]) -> bool
    ensures { result ≡ list_all is_plain_path_byte path.now }
{
    path.iter().all(|b| is_plain_path_byte(*b))
}

/// Whether all bytes of a query are such.
fn has_plain_query(query: &[u8]) -> bool
    ensures { result ≡ list_all is_plain_query_byte query.now }
{
    query.iter().all(|b| is_plain_query_byte(*b))
}

/// Whether the bytes of a path and of the query after its first `?` are such.
fn has_plain_bytes(target: &[u8]) -> bool
    ensures { result ≡ (list_all is_plain_path_byte (split_once_front question_mark target.now)
        && query_passes is_plain_query_byte (split_once_back question_mark target.now)) }
{
    match memchr(b'?', target) {
        Some(at) => has_plain_path(&target[..at]) && has_plain_query(&target[at + 1..]),
        None => has_plain_path(target),
    }
}

/// Whether a target is of the origin form, with bytes that this profile takes.
pub fn is_plain_origin(target: &[u8]) -> bool
    ensures { result ≡ is_plain_origin target.now }
{
    target.len() <= TARGET_LIMIT && begins_with(target, b'/') && has_plain_bytes(target)
}

/// A scheme that this profile takes.
fn scheme_of(text: &[u8]) -> Option<Scheme>
    ensures { seen_scheme_option result ≡ scheme_of text.now }
{
    if text == b"http".as_slice() {
        Some(Scheme::Http)
    } else if text == b"https".as_slice() {
        Some(Scheme::Https)
    } else {
        None
    }
}

/// What a target of the origin form or the asterisk form gives.
fn origin_target(
    alloc: Global,
    method: &[u8],
    target: &[u8],
) -> Result<Option<RequestTarget>, OutOfMemory>
    ensures { IfOk result (λ parts. seen_target_option parts ≡ origin_target method.now target.now) }
{
    let form = if target == b"*".as_slice() {
        if !is_options(method) {
            return Ok(None);
        }
        TargetForm::Asterisk
    } else {
        if !is_path_value(target) {
            return Ok(None);
        }
        TargetForm::Origin
    };
    Ok(Some(RequestTarget {
        form,
        scheme: Scheme::Http,
        authority: None,
        path: Octets::from_slice(alloc, target)?,
    }))
}

/// The path of an absolute target with this text after its authority.
fn absolute_path(alloc: Global, method: &[u8], tail: &[u8]) -> Result<Octets, OutOfMemory>
    ensures { IfOk result (λ path. path ≡ absolute_path method.now tail.now) }
{
    if tail.is_empty() {
        let path = if is_options(method) { b"*" } else { b"/" };
        return Octets::from_slice(alloc, path);
    }
    if begins_with(tail, b'?') {
        let mut path = Octets::from_slice(alloc, b"/")?;
        path.extend_from_slice(tail)?;
        return Ok(path);
    }
    Octets::from_slice(alloc, tail)
}

/// The text after the authority of an absolute target.
fn tail_of<'t>(target: &'t [u8], scheme: &[u8], authority: &[u8]) -> &'t [u8]
    requires { length scheme.now + 3 + length authority.now < 2 ^ 64 }
    ensures { result.now ≡ drop (length scheme.now + 3 + length authority.now) target.now }
{
    target
        .get(scheme.len() + 3 + authority.len()..)
        .unwrap_or(&[])
}

/// What a target of the absolute form gives.
fn absolute_target(
    alloc: Global,
    method: &[u8],
    target: &[u8],
    scheme: &[u8],
    authority: &[u8],
) -> Result<Option<RequestTarget>, OutOfMemory>
    requires { length scheme.now + 3 + length authority.now < 2 ^ 64 }
    ensures { IfOk result (λ parts. seen_target_option parts ≡ absolute_target method.now target.now scheme.now authority.now) }
{
    let Some(scheme_is) = scheme_of(scheme) else {
        return Ok(None);
    };
    let path = absolute_path(alloc, method, tail_of(target, scheme, authority))?;
    if authority.contains(&b'@') || !is_absolute_path(path.as_slice()) {
        return Ok(None);
    }
    Ok(Some(RequestTarget {
        form: TargetForm::Absolute,
        scheme: scheme_is,
        authority: Some(Octets::from_slice(alloc, authority)?),
        path,
    }))
}

/// Whether a path of an absolute target is `*` or one that begins with `/`.
fn is_absolute_path(path: &[u8]) -> bool
    ensures { result ≡ is_absolute_path path.now }
{
    path == b"*".as_slice() || is_path_value(path)
}

/// What a target gives that was read so.
fn parts_of(
    alloc: Global,
    method: &[u8],
    target: &[u8],
    uri: &Uri,
) -> Result<Option<RequestTarget>, OutOfMemory>
    ensures { IfOk result (λ parts.
        seen_target_option parts ≡ target_of method.now target.now (uri_scheme uri.now) (uri_authority uri.now)) }
{
    match (uri.scheme_str(), uri.authority()) {
        (None, None) => origin_target(alloc, method, target),
        (Some(scheme), Some(authority)) => absolute_target(
            alloc,
            method,
            target,
            scheme.as_bytes(),
            authority.as_str().as_bytes(),
        ),
        _ => Ok(None),
    }
}

/// What a target gives, or none where it gives no parts that this profile takes (RFC 9112 section 3.2).
pub fn target_of(
    alloc: Global,
    method: &[u8],
    target: &[u8],
) -> Result<Option<RequestTarget>, OutOfMemory>
    ensures { IfOk result (λ parts. IsTargetOf method.now target.now (seen_target_option parts)) }
{
    match Uri::from_bytes(alloc, target) {
        Ok(uri) => parts_of(alloc, method, target, &uri),
        Err(UriError::Invalid(_)) => Ok(None),
        Err(UriError::OutOfMemory) => Err(AllocError),
    }
}
