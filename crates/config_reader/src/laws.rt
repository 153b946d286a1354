// What the definitions say, as functions without a body.
ghost use Rattle.config_reader.specs.Examples.{AddressExamples, ConfigurationExamples};

/// Texts that are addresses and texts that are not, worked out by hand.
pub fn worked_addresses()
    ensures { AddressExamples }
{}

/// Texts with their configuration or their first refusal, worked out by hand.
pub fn worked_configurations()
    ensures { ConfigurationExamples }
{}
