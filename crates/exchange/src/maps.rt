// The maps of an exchange, by its place among the contexts.
ghost use Rattle.std.specs.Prelude.{◌≡◌, ◌≤◌, [], ◌∷◌, IfOk, OnOk};
ghost use Rattle.header_maps.specs.Operations.{no_headers};
ghost use Rattle.exchange.specs.Maps.{request_map, response_map, request_trailers, response_trailers, put_request, put_response, put_request_trailers, put_response_trailers, mark, with_field, with_fields, answer_map, pair_count};

use contexts::Contexts;
use gate_base::OutOfMemory;
use header_maps::{HeaderEnd, HeaderList};
use std::alloc::{AllocError, Global};

/// The longest value that a list of headers takes.
const BYTE_LIMIT: usize = 16_777_216;

/// The map of the request; `none` where there is none.
pub(crate) fn request_map<'m>(h: &'m Contexts, place: usize, none: &'m HeaderList) -> &'m HeaderList
    requires { none.now ≡ no_headers }
    ensures { result.now ≡ request_map place h.now }
{
    match h.exchange_at(place) {
        None => none,
        Some(view) => match &view.maps.request {
            None => none,
            Some(map) => map,
        },
    }
}

/// The map of the response; `none` where there is none.
pub(crate) fn response_map<'m>(
    h: &'m Contexts,
    place: usize,
    none: &'m HeaderList,
) -> &'m HeaderList
    requires { none.now ≡ no_headers }
    ensures { result.now ≡ response_map place h.now }
{
    match h.exchange_at(place) {
        None => none,
        Some(view) => match &view.maps.response {
            None => none,
            Some(map) => map,
        },
    }
}

/// The trailers of the request; `none` where there are none.
pub(crate) fn request_trailers<'m>(
    h: &'m Contexts,
    place: usize,
    none: &'m HeaderList,
) -> &'m HeaderList
    requires { none.now ≡ no_headers }
    ensures { result.now ≡ request_trailers place h.now }
{
    match h.exchange_at(place) {
        None => none,
        Some(view) => match &view.maps.request_trailers {
            None => none,
            Some(map) => map,
        },
    }
}

/// The trailers of the response; `none` where there are none.
pub(crate) fn response_trailers<'m>(
    h: &'m Contexts,
    place: usize,
    none: &'m HeaderList,
) -> &'m HeaderList
    requires { none.now ≡ no_headers }
    ensures { result.now ≡ response_trailers place h.now }
{
    match h.exchange_at(place) {
        None => none,
        Some(view) => match &view.maps.response_trailers {
            None => none,
            Some(map) => map,
        },
    }
}

/// The map of the request is this from here on.
pub fn put_request(h: &mut Contexts, place: usize, map: HeaderList)
    ensures { h.new ≡ put_request map place h.old }
{
    if let Some(view) = h.exchange_at_mut(place) {
        view.maps.request = Some(map);
    }
}

/// The map of the response is this from here on.
pub fn put_response(h: &mut Contexts, place: usize, map: HeaderList)
    ensures { h.new ≡ put_response map place h.old }
{
    if let Some(view) = h.exchange_at_mut(place) {
        view.maps.response = Some(map);
    }
}

/// The trailers of the request are these from here on.
pub fn put_request_trailers(h: &mut Contexts, place: usize, map: HeaderList)
    ensures { h.new ≡ put_request_trailers map place h.old }
{
    if let Some(view) = h.exchange_at_mut(place) {
        view.maps.request_trailers = Some(map);
    }
}

/// The trailers of the response are these from here on.
pub fn put_response_trailers(h: &mut Contexts, place: usize, map: HeaderList)
    ensures { h.new ≡ put_response_trailers map place h.old }
{
    if let Some(view) = h.exchange_at_mut(place) {
        view.maps.response_trailers = Some(map);
    }
}

/// What host calls are told of an exchange.
pub fn mark(h: &mut Contexts, place: usize, is_answered: bool, has_ended: bool, is_head_out: bool)
    ensures { h.new ≡ mark is_answered has_ended is_head_out place h.old }
{
    if let Some(view) = h.exchange_at_mut(place) {
        view.is_answering = false;
        view.is_answered = is_answered;
        view.has_ended = has_ended;
        view.is_head_out = is_head_out;
    }
}

/// Puts a field after the others, where the list takes it.
fn put_field(
    alloc: Global,
    map: &mut HeaderList,
    name: &[u8],
    value: &[u8],
) -> Result<(), OutOfMemory>
    ensures { OnOk result (map.new ≡ with_field map.old (name.now, value.now)) }
{
    if value.len() > BYTE_LIMIT {
        return Ok(());
    }
    match map.add(alloc, name, value) {
        Ok(()) => Ok(()),
        Err(HeaderEnd::OutOfMemory) => Err(AllocError),
        Err(HeaderEnd::BadName | HeaderEnd::BadValue | HeaderEnd::TooMany) => Ok(()),
    }
}

/// Puts fields after the others.
fn put_fields(alloc: Global, map: &mut HeaderList, fields: &HeaderList) -> Result<(), OutOfMemory>
    ensures { OnOk result (map.new ≡ with_fields map.old fields.now.pairs) }
{
    for at in 0..fields.len() {
        let (name, value) = fields.pair(at);
        put_field(alloc, map, name, value)?;
    }
    Ok(())
}

/// A list of these fields, without pseudo-headers.
pub fn fields_map(alloc: Global, fields: &HeaderList) -> Result<HeaderList, OutOfMemory>
    ensures { IfOk result (λ map. map ≡ with_fields no_headers fields.now.pairs) }
{
    let mut map = HeaderList::new(alloc);
    put_fields(alloc, &mut map, fields)?;
    Ok(map)
}

/// The map of an answer, whose status is one of a response.
pub(crate) fn answer_map(
    alloc: Global,
    status: u16,
    fields: &HeaderList,
) -> Result<HeaderList, OutOfMemory>
    requires least { 200 ≤ status }
    requires most { status ≤ 599 }
    ensures { IfOk result (λ map. map ≡ answer_map status fields.now.pairs) }
{
    match HeaderList::response(alloc, status) {
        Ok(map) => {
            let mut map = map;
            put_fields(alloc, &mut map, fields)?;
            Ok(map)
        }
        Err(_) => Err(AllocError),
    }
}

/// How many pairs a map of an exchange has.
pub fn pair_count(h: &Contexts, place: usize, response: bool, trailers: bool) -> u32
    ensures { result ≡ pair_count response trailers place h.now }
{
    match h.exchange_at(place) {
        None => 0,
        Some(view) => {
            let map = match (response, trailers) {
                (false, false) => &view.maps.request,
                (false, true) => &view.maps.request_trailers,
                (true, false) => &view.maps.response,
                (true, true) => &view.maps.response_trailers,
            };
            match map {
                None => 0,
                Some(map) => map.len() as u32,
            }
        }
    }
}
