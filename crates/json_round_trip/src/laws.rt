// What is written is read back.
ghost use Rattle.json_round_trip.specs.RoundTrip.{ReadsAgain, ReadsBack, ReadsWithin};

pub fn round_trip_stands()
    ensures back { ReadsBack }
    ensures within { ReadsWithin }
    ensures again { ReadsAgain }
{}
